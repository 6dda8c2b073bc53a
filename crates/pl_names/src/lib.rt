//! What names, repositories, refs, paths and keys of files may be.
#![tactic(auto)]

mod keys;
mod names;

pub use keys::{is_key, is_path, is_ref, is_repository};
pub use names::{is_label, is_name, is_plain};
