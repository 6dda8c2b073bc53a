//! Runs that are read and canceled: what the requests are answered.
#![tactic(auto)]

mod canceling;
mod standing;

pub use canceling::cancel;
pub use standing::read_run;
