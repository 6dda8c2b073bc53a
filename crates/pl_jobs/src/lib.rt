//! Jobs that agents draw, claim, ask for and report: what the requests are answered. They look at
//! what has happened, and change nothing.
#![tactic(auto)]

mod giving;
mod reporting;

pub use giving::{claim, draw, why};
pub use pl_granting::{granting_laws, settle};
pub use reporting::report;
