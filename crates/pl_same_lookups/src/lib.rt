//! No code, a law: what is found of facts stays the same behind the same facts.
#![tactic(auto)]

mod laws;

pub use laws::same_lookups_laws;
