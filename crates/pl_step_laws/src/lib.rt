//! That a step leaves no choice.
#![tactic(auto)]

mod laws;

pub use laws::step_laws;
