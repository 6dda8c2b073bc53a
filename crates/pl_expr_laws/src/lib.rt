//! Laws of the grammar of expressions.
#![tactic(auto)]

mod laws;

pub use laws::{faults_are_final, texts_have_one_tree};
