//! Graphs of dependencies: an order in which each node stands after those that it depends on, or
//! the cycle that leaves none, and all that a node depends on.
#![tactic(auto)]

mod edges;
mod fault;
mod placing;
mod topological;
mod transitive;
mod waits;
mod walking;

pub use fault::GraphFault;
pub use topological::order;
pub use transitive::ancestors;
pub use waits::push_edges;
