//! That what a service holds of its past may go into another thread.
//!
//! The prover finds this by itself of a type whose fields are plain, and of a recursive type, but
//! not of one that holds a recursive type, as plans hold expressions. So the proofs have a law for
//! each such type here, from the laws of its fields.
#![tactic(auto)]

mod laws;

pub use laws::sending_laws;
