//! Laws of the values of expressions.
#![tactic(auto)]

mod laws;

pub use laws::values_are_handed_on;
