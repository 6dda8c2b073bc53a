//! What a service stands on that is opened again of kept rows.
#![tactic(auto)]

mod laws;

pub use laws::opening_laws;
pub use pl_opening::{compilations_can_run, seeing_laws};
