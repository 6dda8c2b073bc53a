//! Plans: a pipeline's stages and jobs in the written order, cut into legs, each with what it waits
//! for, where it runs and what it uses (Microsoft Learn, Azure Pipelines, "YAML schema reference",
//! "Stages", "Jobs", "Define variables", "Demands").
#![tactic(auto)]

mod jobs;
mod labels;
mod laws;
mod legs;
mod limits;
mod plan;
mod planning;
mod stages;
mod steps;

pub use labels::label_of;
pub use laws::plan_laws;
pub use pl_depends::{PlanCode, PlanFault};
pub use pl_uses::Demand;
pub use plan::{Compiled, Plan, PlanJob, PlanStage, PlanStep, Sources};
pub use planning::plan_of;
