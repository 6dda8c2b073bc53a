//! JSON values (RFC 8259) as plain data, whose objects have each name once and in byte order.
#![tactic(auto)]

mod json;
mod members;

pub use json::Json;
pub use members::{Member, Members};
