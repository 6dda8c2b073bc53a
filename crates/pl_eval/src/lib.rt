//! Evaluation of expressions: values that keep where they come from, and the first fault.
#![tactic(auto)]

mod applied;
mod apply;
mod evaluate;
mod fault;
mod held;
mod look_ups;
mod manner;
mod names;
mod parts;
mod projecting;
mod texts;
mod weighing;

pub use evaluate::eval;
pub use fault::{EvalCode, EvalFault};
pub use look_ups::{find_member, is_named, place_of};
pub use names::Names;
pub use parts::{RootPart, find_behind, part_behind, work_of_seeking_among};
pub use weighing::{weight_of, work_of, work_of_comparing};
