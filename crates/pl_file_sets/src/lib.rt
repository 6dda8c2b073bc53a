//! Sets of files that copies share: a copy, and a set with one file more or less, take little time
//! and memory of their own.
#![tactic(auto)]

mod leaf;
mod shared_files;
mod spread;
mod trie;

pub use pl_requests::FileText;
pub use shared_files::SharedFiles;
