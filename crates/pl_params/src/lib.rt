//! Parameters of templates: their declarations, and what is bound to them.
#![tactic(auto)]

mod binding;
mod complaints;
mod declaring;
mod earliest;
mod fault;
mod given;
mod judging;
mod kind;
mod names;
mod param;
mod parts;
mod reading;
mod refusing;

pub use binding::bind;
pub use declaring::declare;
pub use earliest::{Placed, earlier, is_before};
pub use fault::{Complaint, Found, Misdeclared, ParamFault, ParamProblem};
pub use given::{Bound, Given};
pub use kind::ParamKind;
pub use param::{Declared, Param};
pub use parts::under;
