//! Nodes written as YAML texts, in one printed form.
#![tactic(auto)]

mod lines;
mod printing;
mod quoting;

pub use printing::write;
