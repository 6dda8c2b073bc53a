//! Which rows facts can change: those of the places that they touch.
#![tactic(auto)]

mod laws;

pub use laws::touching_laws;
pub use pl_kept::Journal;
