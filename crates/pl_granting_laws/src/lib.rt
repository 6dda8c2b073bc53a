//! Laws of who is given which job, along a history.
#![tactic(auto)]

mod laws;

pub use laws::history_laws;
pub use pl_granting::{granting_laws, settling_laws};
