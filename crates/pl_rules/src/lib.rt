//! Why the service refuses, waits or ends something: its rules, and the small types that they and
//! the checks name.
#![tactic(auto)]

mod day;
mod role;
mod rule;
mod state;

pub use day::Day;
pub use pl_base::RepoRef;
pub use role::Role;
pub use rule::Rule;
pub use state::State;
