//! Whether a value can be written in a row: its texts and its lists have lengths of four bytes.
#![tactic(auto)]

mod checks;
mod compounds;
mod keys;
mod kinds;
mod rules;
mod short;
mod texts;

pub use short::Short;
