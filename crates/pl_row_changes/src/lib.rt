//! What an entry changes among the kept rows.
#![tactic(auto)]

mod changing;
mod looked;
mod numbers;
mod pushing;

pub use changing::{EntryChanges, changes_of};
pub use numbers::with_numbers;
pub use pl_touching::{Spot, row_at};
