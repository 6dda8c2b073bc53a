//! No code, a law: what the rows of a state are read as.
#![tactic(auto)]

mod laws;

pub use laws::reread_laws;
