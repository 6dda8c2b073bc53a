//! The rows of a state: which they are.
#![tactic(auto)]

mod laws;

pub use laws::rows_laws;
pub use pl_places::numbers_row;
