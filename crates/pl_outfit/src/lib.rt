//! What the program has of the outside, and how it ends.
#![tactic(auto)]

mod outfit;
mod status;

pub use outfit::Outfit;
pub use status::Status;
