//! Laws of where the nodes of expanded files come from.
#![tactic(auto)]

mod laws;

pub use laws::calls_keep_what_was_extended;
