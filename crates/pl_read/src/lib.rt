//! Rows that are read again: what each of them keeps.
#![tactic(auto)]

mod laws;
mod reading;

pub use laws::reading_laws;
pub use reading::{read_row, read_rows};
