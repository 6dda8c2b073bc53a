//! JSON values (RFC 8259) over their content's own text, seen as what `serde_json` reads of it.
#![tactic(auto)]

mod content;
mod members;
mod numbers;
mod range;
mod reading;
mod tree;

pub use content::value_in;
pub use members::{by_name, get, has_only};
pub use tree::{Tree, flag_in, items_in, number_in, text_in};
