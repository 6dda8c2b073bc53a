//! Laws of what a plan was compiled from.
#![tactic(auto)]

mod laws;

pub use laws::sources_compile_again;
pub use pl_compile::{CompileFault, SharedFiles, compile};
