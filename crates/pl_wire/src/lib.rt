//! The service's wire: bytes to messages, and replies to bytes.
#![tactic(auto)]

mod asked;
mod message;
mod next;
mod spelling;
mod waiting;
mod written;

pub use message::{Message, Next, RequestFault};
pub use next::{
    messages_stay, next_message, next_request, one_answer, one_reading, requests_are_well_formed,
};
pub use pl_heads::HttpFault;
pub use pl_routes::Routes;
pub use waiting::Waiting;
pub use written::{MEMORY_REPLY, fault_reply, memory_reply, refused_reply, reply_bytes};
