//! No code, laws: services that keep the same answer the same, and so does one that is opened of
//! another's rows.
#![tactic(auto)]

mod laws;
mod opened;

pub use laws::same_past_laws;
pub use opened::same_opened_laws;
