//! YAML texts as nodes with their places, and nodes as YAML texts in one printed form.
#![tactic(auto)]

mod block_line;
mod block_lines;
mod block_scalar;
mod block_text;
mod content;
mod document;
mod entries;
mod fault;
mod head;
mod header;
mod heads;
mod inline;
mod key;
mod keys;
mod node;
mod push;
mod reader;
mod scalar;
mod slot;
mod stack;

pub use document::read;
pub use fault::YamlFault;
pub use pl_line::YamlCode;
pub use pl_printing::write;
