//! The journal: what has happened, and what is looked up in it.
#![tactic(auto)]

mod about;
mod built_in;
mod decisions;
mod journal;
mod kinds;
mod looking;
mod numbers;
mod runs;
mod settings;
mod told;

pub use journal::{Journal, Numbers};
pub use pl_facts::{Event, Fact, QueuedRun};
pub use told::{outcome_told, outputs_told, rule_told, taker_told, verdict_told};
