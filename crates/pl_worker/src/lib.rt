//! Workers: each serves the links that a handle of a door gives, one after the other, at a desk of
//! its own. Four of them work at once.
#![tactic(auto)]

mod crew;
mod post;
mod why;
mod worker;

pub use crew::{Round, serve_by_four};
pub use post::{Crew, Post};
pub use why::{End, Reasons, Why};
pub use worker::work;
