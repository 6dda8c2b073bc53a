//! Pipelines, expanded: the root file with its run arguments, its variables first, then its pairs,
//! beside those of the template that it extends. Below it stand the pairs and `extends`, in
//! `pl_extends`, and the recursion into nodes and called templates, in `pl_recursion`.
#![tactic(auto)]

mod expansion;
mod filling;
mod merging;
mod root;

pub use expansion::{expand, expand_counted, expand_within};
pub use pl_calls::{Files, Parsed};
pub use pl_directives::{Complaint, ExpandFault, ExpandProblem};
pub use pl_root::MemFiles;
pub use root::RootTree;
