//! The limits of what requests bring and what rows keep, beside those of names, refs and paths.
#![tactic(auto)]

mod checks;
mod endings;
mod lists;
mod numbers;
mod places;

pub use checks::{are_checks, is_check};
pub use endings::is_ending;
pub use lists::{are_capabilities, are_outputs, is_file_text, may_be_granted};
pub use numbers::{is_counted, is_run};
pub use pl_checks::Check;
