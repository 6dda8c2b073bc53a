//! Exclusive locks between the stages of runs: which stage may start next, and which one gives way
//! to a later run.
#![tactic(auto)]

mod choosing;
mod contender;
mod contenders;
mod laws;
mod ordering;

pub use choosing::{comes_first, least_superseded, next_of};
pub use contender::Contender;
pub use contenders::Contenders;
pub use laws::lock_laws;
