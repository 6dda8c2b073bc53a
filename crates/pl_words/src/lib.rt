//! The words of the command line.
#![tactic(auto)]

mod command;
mod digest;
mod options;
mod parameters;
mod runs;
mod words;

pub use command::Command;
pub use words::parse;
