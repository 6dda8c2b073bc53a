//! The door as the operating system gives it: a socket that listens, and its connections as links.
//! It is the trusted edge: it tells no contents, and each error is counted.
#![tactic(auto)]

mod connection;
mod door;
mod shared;

pub use connection::{LATE, SHARE, TICK, Tcp};
pub use door::TcpDoor;
