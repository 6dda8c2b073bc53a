//! The fields of kept rows: how numbers, flags, texts, options, lists, rules and checks stand in
//! bytes, and how they are read again.
#![tactic(auto)]

mod bytes;
mod checks;
mod compounds;
mod decimal;
mod fault;
mod field;
mod keys;
mod kinds;
mod numbers;
mod rules;
mod texts;
mod whole;

pub use fault::DecodeFault;
pub use field::{Field, Written};
pub use texts::{Raw, RawSlice};
pub use whole::{decoded, encoded};
