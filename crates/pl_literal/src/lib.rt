//! What templates and pipelines share: texts that are Booleans, kinds of items, nodes as values,
//! and equality of values.
#![tactic(auto)]

mod booleans;
mod items;
mod nodes;
mod values;

pub use booleans::{boolean_in, spells};
pub use items::{ItemKind, kind_of_item, kind_of_key};
pub use nodes::{literal, origin_at};
pub use values::same_value;
