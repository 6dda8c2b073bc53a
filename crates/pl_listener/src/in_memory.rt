//! A door in memory: who comes to it, and its handles.

mod calls;
mod door;
mod listener;
mod visitor;

pub use door::MemDoor;
pub use listener::MemListener;
pub use visitor::{MemVisitor, Visitor};
