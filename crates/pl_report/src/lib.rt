//! What is told of a pipeline as text: keys of files, places, and why it is refused.
#![tactic(auto)]

mod lines;

pub use lines::{push_key, push_place, push_word, refusal_line};
