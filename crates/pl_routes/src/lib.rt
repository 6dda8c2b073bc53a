//! Where requests go: the table of the service's routes, and the parts of their paths.
#![tactic(auto)]

mod fault;
mod goal;
mod parts;
mod place;
mod route;
mod rules;
mod table;
mod target;

pub use fault::RouteFault;
pub use goal::{Goal, goal_of};
pub use parts::{decoded, parts_of};
pub use place::Place;
pub use route::{Route, method_of, roles_of};
pub use rules::{kind_of, run_number};
pub use table::Routes;
pub use target::{Asking, JobKey, StageKey, Target, target_of};
