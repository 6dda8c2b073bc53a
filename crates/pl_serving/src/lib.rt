//! The command `serve`: four workers over the links that come to a door.
#![tactic(auto)]

mod doors;
mod serving;
mod statuses;

pub use serving::serve_at;
