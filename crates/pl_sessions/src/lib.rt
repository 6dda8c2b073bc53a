//! The session of one link: its bytes are read as messages, a desk acts on each, and the replies
//! are written in order. Whoever acts is a `Desk`.
#![tactic(auto)]

mod answer;
mod buffer;
mod desk;
mod laws;
mod served;
mod serving;
mod session;

pub use answer::Answer;
pub use desk::Desk;
pub use laws::{one_stream, rests_are_open};
pub use served::Served;
pub use serving::write_all;
pub use session::{replay_link, serve_link};
