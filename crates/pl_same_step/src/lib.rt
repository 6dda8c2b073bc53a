//! No code, a law: where the same is found, a call is answered the same.
#![tactic(auto)]

mod laws;

pub use laws::same_step_laws;
