//! The outside in memory, which tells its contents. Calls are counted from 1, and those that a list
//! names fail.

mod clock;
mod sink;
mod source;

pub use clock::MemClock;
pub use sink::MemSink;
pub use source::MemSource;
