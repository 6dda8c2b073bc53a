//! Paths of templates: the alias of a repository behind a path, and where a path leads from the
//! file that holds it.
#![tactic(auto)]

mod cutting;
mod laws;
mod resolving;

pub use cutting::{TemplatePath, cut_path};
pub use laws::{resolved_has_no_dots, resolved_leads_to_itself};
pub use resolving::{from_file, from_root};
