//! Frames: what a template's expressions see, and where the values that they give come from.
#![tactic(auto)]

mod bindings;
mod contexts;
mod counting;
mod doubles;
mod expressions;
mod frame;
mod gathering;
mod loops;
mod members;
mod moving;
mod names;
mod origins;
mod parts;
mod problem;
mod variables;

pub use bindings::parameters_of;
pub use counting::count_nodes;
pub use doubles::first_double;
pub use expressions::expression_at;
pub use frame::{Frame, Loop, Parameter, Variable, Variables};
pub use loops::{pair_object, property, within};
pub use moving::cross;
pub use origins::{literal_at, made_at};
pub use problem::{ExpressionFault, ExpressionProblem};
pub use variables::variables_of;
