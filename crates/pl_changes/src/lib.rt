//! The changes that lead from rows to other rows.
#![tactic(auto)]

mod adding;
mod difference;
mod laws;
mod looking;

pub use adding::add_row;
pub use difference::differing;
pub use laws::change_laws;
pub use looking::row_in;
