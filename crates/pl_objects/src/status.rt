use pl_base::{List, Outcome, Shared, Text};
use pl_rules::Rule;

/// How a run stands: whether it was canceled, and how its stages stand, in the order of its plan.
#[derive(Debug, Drop)]
pub struct RunStatus {
    pub canceled: bool,
    pub stages: List<StageStatus>,
}

/// How a stage stands: how far it has come, and how its jobs stand, in the order of its plan.
#[derive(Debug, Drop)]
pub struct StageStatus {
    pub progress: Progress,
    pub jobs: List<JobStatus>,
}

/// How a job stands: the agent that took it, if one did, and how far it has come.
#[derive(Debug, Drop)]
pub struct JobStatus {
    pub agent: Option<Shared<Text>>,
    pub progress: Progress,
}

/// How far a stage or a job has come.
#[derive(Debug, Drop)]
pub enum Progress {
    /// It hasn't been started.
    Waiting,
    /// It was started, and hasn't ended.
    Running,
    /// It ended with this result, by this rule if one ended it.
    Ended {
        outcome: Outcome,
        rule: Option<Shared<Rule>>,
    },
}
