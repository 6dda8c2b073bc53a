//! All rows of a state.
#![tactic(auto)]

mod all;
mod events;
mod ordering;
mod places;
mod plans;

pub use all::rows_of;
pub use pl_row_changes::EntryChanges;
