//! What a request is answered, and what happens by it.
#![tactic(auto)]

mod answer;
mod replies;

pub use answer::Answer;
pub use replies::{empty_object, json_reply, no_content, numbered};
