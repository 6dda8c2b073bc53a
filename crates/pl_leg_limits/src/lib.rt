//! No code, a law: the legs of a job have one limit.
#![tactic(auto)]

mod laws;

pub use laws::leg_laws;
