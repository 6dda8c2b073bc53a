use pl_base::{FileKey, List, Moment, Origin, Text};
use pl_rules::{RepoRef, Rule};

/// What the checks see of a stage: who queued its run, the decisions about the stage (who, and
/// whether it was approved), when it was ready, the refs that the run is linked to, the template
/// that the run extends, and where the stage's steps come from.
#[derive(Debug, Drop)]
pub struct CheckView {
    pub requester: Text,
    pub decisions: List<(Text, bool)>,
    pub ready: Moment,
    pub linked: List<RepoRef>,
    pub extends: Option<FileKey>,
    pub steps: List<StepMark>,
}

/// A step: its job, its number there from 1, and where its mapping and its first key come from.
#[derive(Debug, Drop)]
pub struct StepMark {
    pub job: Text,
    pub number: u32,
    pub mapping: Origin,
    pub key: Origin,
}

/// What a check says of a stage at a moment.
#[derive(Debug, Drop)]
pub enum Verdict {
    /// It lets the stage start.
    Pass,
    /// It may still pass, and doesn't yet by this rule.
    Wait(Rule),
    /// The stage ends by this rule.
    Fail(Rule),
}
