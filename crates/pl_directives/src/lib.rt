//! Directives and expressions of templates: what a key asks for, what a scalar's expressions give,
//! and a collection as far as it is expanded.
#![tactic(auto)]

mod action;
mod asking;
mod contents;
mod fault;
mod keys;
mod manner;
mod misfit;
mod progress;
mod refusing;
mod region;
mod scalars;
mod straying;
mod wholes;

pub use action::{Action, Turns};
pub use asking::key_asks;
pub use contents::{
    add_items, add_pairs, as_items, as_pairs, begin, begin_spliced, put_item, put_pair,
};
pub use fault::{Complaint, ExpandFault, ExpandProblem};
pub use keys::{MadeKey, key_by};
pub use manner::{Kind, Manner};
pub use misfit::Misfit;
pub use progress::{Chain, Content, Counted, Progress};
pub use refusing::{complain, enter, refuse};
pub use region::{Form, Region, Standing};
pub use scalars::{counted_value_at, scalar_value};
pub use straying::{given_value, judge_key, told};
pub use wholes::{absorb, finish, object_of};
