//! The step: what a call is answered, and the facts that it adds to what has happened.
#![tactic(auto)]

mod answering;
mod callers;
mod entering;
mod full;
mod held;
mod stepped;
mod stepping;

pub use callers::may_call;
pub use held::Held;
pub use pl_jobs::granting_laws;
pub use stepped::{Entered, Stepped};
pub use stepping::step;
