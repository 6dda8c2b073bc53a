//! Conditions of stages and jobs over how their run stands, and the variables that a job is handed
//! (Microsoft Learn, Azure Pipelines, "Specify conditions", "Expressions", "Define variables").
#![tactic(auto)]

mod conditions;
mod context;
mod evaluating;
mod gathering;
mod laws;
mod needs;
mod objects;
mod paths;
mod resolving;
mod variables;
mod written;

pub use conditions::{job_condition, stage_condition, variables_of};
pub use laws::each_plan_can_run;
pub use pl_results::{JobView, RunView};
