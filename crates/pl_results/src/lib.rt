//! Results of a run: how they combine, which of them the status functions of a condition look at,
//! and the outputs that expressions see (Microsoft Learn, Azure Pipelines, "Expressions", Job
//! status check functions and Dependencies).
#![tactic(auto)]

mod combining;
mod edges;
mod legs;
mod members;
mod parts;
mod places;
mod statuses;
mod view;

pub use combining::combined;
pub use legs::{KeyForm, Leg, direct_legs};
pub use members::{Member, PlanNode, is_named, jobs_of, members_of};
pub use parts::{
    Group, Part, job_part, job_parts, stage_group, stage_groups, stage_part, stage_parts,
};
pub use statuses::Statuses;
pub use view::{JobView, RunView, views_of};
