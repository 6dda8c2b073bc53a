//! A law of where the steps of a plan stand in the tree that it was made of.
#![tactic(auto)]

mod laws;

pub use laws::steps_stand_in_the_tree;
pub use pl_provenance::{Files, MemFiles, Parsed, expand};
