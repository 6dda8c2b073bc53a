//! Expressions: the conversions and the order of their values, their grammar, and their printed
//! form.
#![tactic(auto)]

mod conversions;
mod copying;
mod expr;
mod fault;
mod laws;
mod literals;
mod numerals;
mod parser;
mod printing;
mod scan;
mod stop;
mod tree;

pub use conversions::{loosely_equal, order, to_bool, to_number, to_text, to_version};
pub use expr::{Expr, Function, Mode};
pub use fault::{ExprCode, ExprFault};
pub use laws::grammar_laws;
pub use parser::parse;
pub use printing::print;
