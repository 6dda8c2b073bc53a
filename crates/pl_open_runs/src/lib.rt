//! The journal with its open runs in order.
#![tactic(auto)]

mod index;
mod indexed_journal;
mod openness;

pub use indexed_journal::IndexedJournal;
