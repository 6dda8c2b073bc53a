/// How a stage or a job ended (Microsoft Learn, Azure Pipelines, "Conditions").
#[derive(Clone, Copy, Debug, PartialEq, Eq)]
pub enum Outcome {
    Succeeded,
    SucceededWithIssues,
    Failed,
    Canceled,
    Skipped,
}

/// What waiting runs do at an exclusive resource (Microsoft Learn, Azure Pipelines, "Define
/// approvals and checks", Exclusive lock): all of them in turn, or the latest alone.
#[derive(Clone, Copy, Debug, PartialEq, Eq)]
pub enum Behaviour {
    Sequential,
    RunLatest,
}
