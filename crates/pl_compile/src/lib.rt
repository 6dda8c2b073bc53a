//! Pipelines, compiled: from the texts of files to the expanded tree and to the plan, or to the
//! first refusal.
#![tactic(auto)]

mod codes;
mod compiling;
mod copying;
mod expanding;
mod fault;
mod laws;
mod refusing;
mod text_files;

pub use compiling::{compile, compile_within};
pub use expanding::expanded;
pub use fault::CompileFault;
pub use laws::places_name_their_file;
pub use pl_file_sets::SharedFiles;
