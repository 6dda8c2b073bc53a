use pl_base::{FileKey, List, Moment, Outcome, Shared, Text};
use pl_plan::Compiled;
use pl_requests::{
    AgentSetting, FileText, PipelineSetting, PrincipalSetting, ResourceSetting, Rule,
};
use std::mem::size_of;

/// What each of many facts takes beside what it shares.
const _: () = prove!(size_of::<Fact>() == 56);

/// A fact: what has happened, and at which moment, which is that of the call that it came with.
#[derive(Drop)]
pub struct Fact {
    pub moment: Moment,
    pub event: Event,
}

/// What has happened. A stage is told by its run's number and its place in the list of the run's
/// plan, from 0, and a job by its place in the list of its stage. What may be long is shared by
/// copies. Fields lie in memory in the order that they are written in, which is the one that takes
/// least.
#[derive(Drop)]
pub enum Event {
    /// A file was put.
    FilePut(Shared<FileText>),
    /// A file was removed.
    FileRemoved(Shared<FileKey>),
    PipelineSet(Shared<PipelineSetting>),
    ResourceSet(Shared<ResourceSetting>),
    PrincipalSet(Shared<PrincipalSetting>),
    AgentSet(Shared<AgentSetting>),
    /// A run was queued.
    RunQueued(Shared<QueuedRun>),
    /// Someone approved a stage, or rejected it.
    DecisionMade {
        run: u64,
        stage: u32,
        approver: Shared<Text>,
        approve: bool,
    },
    StageStarted {
        run: u64,
        stage: u32,
    },
    /// A stage ended with this result, by this rule if one ended it.
    StageEnded {
        run: u64,
        stage: u32,
        outcome: Outcome,
        rule: Option<Shared<Rule>>,
    },
    /// An agent took a job.
    JobTaken {
        run: u64,
        stage: u32,
        job: u32,
        agent: Shared<Text>,
    },
    /// A job ended with this result, by this rule if one ended it, else by this report: the result
    /// that was reported, and the outputs by their keys.
    JobEnded {
        outcome: Outcome,
        reported: Option<Outcome>,
        stage: u32,
        job: u32,
        run: u64,
        rule: Option<Shared<Rule>>,
        outputs: Shared<List<(Text, Text)>>,
    },
    /// A run is to end.
    RunCanceled {
        run: u64,
    },
}

/// A run: its number, its pipeline's name, who queued it, and its plan with what that was compiled
/// from. Runs of the same sources may share their plan.
#[derive(Drop)]
pub struct QueuedRun {
    pub run: u64,
    pub pipeline: Text,
    pub requester: Text,
    pub compiled: Shared<Compiled>,
}
