//! The command `replay`: the messages of the source, answered on the sink.
#![tactic(auto)]

mod laws;
mod replaying;

pub use laws::whole_input_finishes;
pub use replaying::replay;
