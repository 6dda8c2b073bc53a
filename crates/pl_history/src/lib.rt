//! Legal histories of a service, and what each makes sure of.
#![tactic(auto)]

mod claims;
mod entries;
mod laws;

pub use claims::claim_laws;
pub use entries::entry_laws;
pub use laws::access_laws;
pub use pl_compilation::compilations_can_run;
pub use pl_step::{Entered, Held, Stepped, may_call, step};
