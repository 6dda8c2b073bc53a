//! The command `rehearse`: generated runs on a service of its own, and the line of what they come
//! to.
#![tactic(auto)]

mod command;

pub use command::rehearse;
