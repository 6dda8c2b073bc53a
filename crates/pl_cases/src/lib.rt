//! What programs of cases share: the form of cases, how a case spells bytes, and answers.
#![tactic(auto)]

mod answers;
mod asks;
mod meaning;
mod shown;
mod spelling;

pub use answers::Answers;
pub use asks::{Questions, answer_all, answer_each, first_line};
pub use meaning::{meant, repeated};
pub use shown::push_shown;
pub use spelling::plain;
