//! The input that is generated for a rehearsal.
#![tactic(auto)]

mod requests;
mod texts;

pub use requests::{first_request, next_request};
