//! No code, a law: two states with the same rows keep the same.
#![tactic(auto)]

mod laws;

pub use laws::same_laws;
