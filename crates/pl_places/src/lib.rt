//! Where rows stand: their tables, and their keys in bytes.
#![tactic(auto)]

mod laws;

pub use laws::place_laws;
pub use pl_kept::numbers_row;
