//! Streams as a whole: a source that is read to its end, and bytes that are written to a sink.
#![tactic(auto)]

mod reading;
mod writing;

pub use reading::{PIECE, TAKEN_LIMIT, Unread, read_to_end};
pub use writing::write_all;
