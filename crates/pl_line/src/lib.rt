//! A YAML text as lines of characters, and what stands on one line.
#![tactic(auto)]

mod characters;
mod code;
mod escapes;
mod first_line;
mod flow_head;
mod flow_heads;
mod flows;
mod found;
mod keys;
mod left;
mod line;
mod line_fault;
mod numbers;
mod pairs;
mod piece;
mod quotes;
mod rows;
mod scalars;
mod scan;
mod tail;
mod taking;

pub use characters::Characters;
pub use code::YamlCode;
pub use flows::flow;
pub use found::{Flow, Quoted};
pub use left::{
    advance, behind, end_code, fault_at, fault_behind, is_bare, is_comment, is_done, is_empty,
    line_end, spaces_only,
};
pub use line::Line;
pub use line_fault::{Fault, ReadFault};
pub use pairs::Pairs;
pub use quotes::quoted;
pub use rows::{Rows, without_mark};
pub use scalars::{node_at, plain};
pub use scan::{begins_with, content, ends_word, is_stray, plain_len, stands_at};
