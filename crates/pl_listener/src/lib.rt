//! Doors through which links come: a listener is one handle of a door, and tells the links that
//! went through it. A door in memory is here too.
#![tactic(auto)]

mod fault;
mod in_memory;
mod listener;

pub use fault::ListenFault;
pub use in_memory::{MemDoor, MemListener, MemVisitor, Visitor};
pub use listener::Listener;
