//! What the program does where it has no store, or no service can be opened of a store's rows.
#![tactic(auto)]

mod line;
mod unopened;

pub use unopened::{refuse, store_at};
