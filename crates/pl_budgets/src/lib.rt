//! What a compile may make and do at most.
#![tactic(auto)]

mod budget;
mod meter;

pub use budget::Budget;
pub use meter::{MOST_MADE, MOST_WORK, Meter};
