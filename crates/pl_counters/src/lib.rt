//! Counters of what each of some nodes waits for that hasn't ended.
#![tactic(auto)]

mod counters;
mod counting;

pub use counters::Counters;
