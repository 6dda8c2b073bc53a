//! That what a rehearsal comes to leaves no choice.
#![tactic(auto)]

mod laws;

pub use laws::rehearsal_laws;
