//! What the stages of a pipeline and the jobs of a stage wait for: names and the places at which
//! those who have them stand, unknown names, and cycles (Microsoft Learn, Azure Pipelines,
//! "Stages" and "Jobs", Specify dependencies).
#![tactic(auto)]

mod cycles;
mod fault;
mod graph;
mod known;
mod places;

pub use cycles::judge_cycles;
pub use fault::{PlanCode, PlanFault};
pub use graph::{job_waits, stage_waits};
pub use known::names_known;
pub use places::{Places, is_known, leg_count, leg_places, no_places, put, stage_places};
