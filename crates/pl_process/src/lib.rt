//! The outside as the operating system gives it: the trusted edge. It tells no contents; each error
//! is counted.
#![tactic(auto)]

mod process;
mod store;
mod streams;

pub use process::Process;
pub use store::ProcessStore;
pub use streams::{Reading, SystemClock, Writing};
