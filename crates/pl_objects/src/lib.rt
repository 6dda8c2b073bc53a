//! What replies show, as JSON: jobs with their steps, runs with their stages and jobs, and where
//! steps come from.
#![tactic(auto)]

mod jobs;
mod origins;
mod runs;
mod status;
mod steps;

pub use jobs::job_object;
pub use origins::origin_object;
pub use pl_refusals::{fields_of, name_of, rule_object};
pub use runs::run_object;
pub use status::{JobStatus, Progress, RunStatus, StageStatus};
pub use steps::step_object;
