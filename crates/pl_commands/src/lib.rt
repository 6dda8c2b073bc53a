//! What the program's commands do over an outside that is given to them: messages are answered, of
//! one source or of the links of a door, bundles are compiled, and generated runs are rehearsed.
#![tactic(auto)]

mod commands;
mod compiling;
mod usage;

pub use commands::run;
