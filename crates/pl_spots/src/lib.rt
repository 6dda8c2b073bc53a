//! The row that is kept at any place, and that of a run.
#![tactic(auto)]

mod rows;
mod runs;
mod spots;
mod used_files;
mod written;

pub use rows::row_at;
pub use runs::run_row;
pub use spots::Spot;
