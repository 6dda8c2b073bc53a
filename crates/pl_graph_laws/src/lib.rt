//! Laws of the orders and the cycles of graphs.
#![tactic(auto)]

mod laws;

pub use laws::orders_and_cycles_are_unique;
