//! What is found in one run: what is due first in it, which of its stages may start or run, which of
//! its jobs wait for an agent or are held by one, and until when that stays so.
#![tactic(auto)]

mod found;
mod jobs;
mod laws;
mod looking;
mod quiet;
mod types;

pub use laws::look_laws;
pub use looking::look;
pub use types::{First, Kind, Look, ReadyJob, TakenJob};
