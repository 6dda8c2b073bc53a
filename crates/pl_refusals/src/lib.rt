//! What rules are called, and what refusals tell: the table of rules, as JSON.
#![tactic(auto)]

mod fields;
mod names;
mod objects;
mod parts;
mod rows;

pub use fields::fields_of;
pub use names::{day_name, kind_name, outcome_name, role_name, state_name, verdict_name};
pub use objects::rule_object;
pub use parts::{
    file_object, number, place_object, push, push_file, text, text_or_null, texts, word,
};
pub use rows::name_of;
