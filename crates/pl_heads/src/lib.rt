//! The heads of requests at the front of a link's bytes: `httparse`'s heads within the limits, the
//! fields that the service reads, and the length of the content behind them.
#![tactic(auto)]

mod fault;
mod fields;
mod framing;
mod front;
mod judging;
mod laws;
mod lines;
mod reading;

pub use fault::HttpFault;
pub use front::{FIELD_LIMIT, Front, HEAD_LIMIT, Head, read_head};
pub use laws::{fronts_stay, one_front};
