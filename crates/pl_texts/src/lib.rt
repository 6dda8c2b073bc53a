//! The functions on texts that expressions call (Microsoft Learn, Azure Pipelines, "Expressions",
//! Functions).
#![tactic(auto)]

mod bound;
mod changing;
mod fault;
mod formatting;
mod joining;
mod matching;
mod scanning;
mod splitting;

pub use bound::LONGEST_TEXT;
pub use changing::{lower, replace, trim, upper};
pub use fault::TextFault;
pub use formatting::format;
pub use joining::join;
pub use matching::{contains, count, ends_with, starts_with};
pub use splitting::split;
