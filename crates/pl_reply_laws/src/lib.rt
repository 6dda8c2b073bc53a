//! That what is answered leaves no choice.
#![tactic(auto)]

mod laws;

pub use laws::reply_laws;
