//! Settling: what is due is added to what has happened, fact after fact, until nothing is.
#![tactic(auto)]

mod laws;
mod settling;

pub use laws::settling_laws;
pub use pl_due::due;
pub use settling::settle;
