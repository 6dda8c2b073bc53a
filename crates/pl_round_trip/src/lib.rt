//! What is printed of a tree reads as that tree.
#![tactic(auto)]

mod laws;
mod utf8;

pub use laws::what_is_printed_reads_back;
