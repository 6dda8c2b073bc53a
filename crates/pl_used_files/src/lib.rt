//! A law of the files that an expansion uses.
#![tactic(auto)]

mod laws;

pub use laws::used_files_decide;
