//! What is told of a plan as text: a line for what it extends, for each stage, for each of its jobs
//! and for each of their steps.
#![tactic(auto)]

mod bound;
mod jobs;
mod names;
mod plans;
mod stages;
mod steps;
mod words;

pub use plans::plan_text;
