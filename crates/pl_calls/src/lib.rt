//! Calls of templates, as far as they are followed without the expansion of what is called: the
//! item of a call, the file that its path leads to, what may stand in a template, and its frame.
#![tactic(auto)]

mod call;
mod files;
mod frames;
mod judging;
mod parameters;
mod parts;
mod reaching;
mod weighing;

pub use call::{Call, arguments_at, call_of, given_across, pairs_from, path_text};
pub use files::{Files, Parsed};
pub use frames::{Template, framed_by};
pub use judging::{body_in, form_key, judge_body, may_give, node_in, template_in};
pub use parameters::{bound_to, declared_by};
pub use parts::{items_of, key_place, pairs_of, text_of, text_under};
pub use pl_params::under;
pub use reaching::{Home, Opened, Reach, open, same_file};
