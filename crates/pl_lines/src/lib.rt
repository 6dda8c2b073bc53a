//! Places in order, in a line for each key.
#![tactic(auto)]

mod lines;

pub use lines::Lines;
