//! What each kind of expression and each function gives, one equation each.
#![tactic(auto)]

mod laws;

pub use laws::equations;
