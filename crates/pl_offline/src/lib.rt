//! Pipelines compiled offline: a bundle from a source, and on a sink the text that it compiles to.
#![tactic(auto)]

mod ending;
mod output;
mod running;

pub use ending::Ending;
pub use running::compile_bundle;
