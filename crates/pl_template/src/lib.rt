//! Where expressions stand in the texts of templates: the form of a scalar, and the form of a key,
//! which may be a
//! directive.
#![tactic(auto)]

mod cutting;
mod directive;
mod ends;
mod forms;
mod keys;
mod laws;
mod words;

pub use cutting::{begins_expression, scalar_form};
pub use forms::{KeyForm, Piece, ScalarForm};
pub use keys::key_form;
pub use laws::form_laws;
