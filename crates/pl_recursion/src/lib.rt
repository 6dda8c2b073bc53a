//! The recursion of an expansion: a node of any file in a frame, with the templates that it calls,
//! and with where each node comes from. What is read of the root file alone stands above it, in
//! `pl_expand`.
#![tactic(auto)]

mod expanding;
mod facets;
mod followed;
mod following;
mod items;
mod putting;
mod scalars;
mod scope;
mod settling;

pub use expanding::{expand_node, expand_path, fill_key, fill_pair};
pub use followed::{Followed, SettledPairs};
pub use following::{MOST_LEVELS, MOST_OPEN};
pub use items::{variable_items, with_item};
pub use scope::Scope;
pub use settling::settle_node;
