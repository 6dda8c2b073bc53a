//! The moment at which a stage that waits for its checks has to be looked at again.
#![tactic(auto)]

mod laws;
mod steady;

pub use laws::steady_laws;
pub use steady::{sooner, steady_until};
