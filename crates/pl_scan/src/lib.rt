//! Heads of requests that come byte by byte: where they end, while they are only begun.
#![tactic(auto)]

mod place;
mod scanner;
mod steps;

pub use place::Place;
pub use scanner::Scanner;
