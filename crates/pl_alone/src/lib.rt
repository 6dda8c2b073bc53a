//! A desk for one link, without a lock: it answers messages, one after the other.
#![tactic(auto)]

mod alone;
mod laws;

pub use alone::Alone;
pub use laws::desks_last;
pub use pl_service::{access_laws, claim_laws, kept_laws};
