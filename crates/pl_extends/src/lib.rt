//! The pairs of a root file after directives, and what `extends` among them brings: the pairs of a
//! template, with its parameters bound and its calls followed.
#![tactic(auto)]

mod extending;
mod forms;
mod rooting;

pub use extending::{Extension, extend, extend_value, item_under, judge_keys};
pub use forms::{form_place, is_form};
pub use rooting::{ROOT, RootFilling, Spot, put_pair_of};
