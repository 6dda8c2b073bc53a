//! Which kept rows are torn: the first that doesn't stand together with the others.
#![tactic(auto)]

mod exclusive;
mod holding;
mod judging;
mod looking;
mod moments;
mod names;
mod near;
mod plans;
mod seen;

pub use judging::torn;
pub use looking::meta_told;
pub use seen::Seen;
