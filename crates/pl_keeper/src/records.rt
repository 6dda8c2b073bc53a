use pl_base::{Argument, Bytes, Digest, FileKey, List, Moment, Outcome, ResourceKey, Text};
use pl_limits::Check;
use pl_rules::{Role, Rule};

/// What one kept row holds, by its table.
#[derive(Debug, Drop)]
pub enum Record {
    Meta(Meta),
    File(KeptFile),
    Pipeline(KeptPipeline),
    Resource(KeptResource),
    Principal(KeptPrincipal),
    Agent(KeptAgent),
    Run(KeptRun),
    Stage(KeptStage),
    Job(KeptJob),
    Decision(KeptDecision),
}

/// The service's numbers: the moment of its last entry, the number of its last run, the version of
/// its files, and the number of the next change of a row.
#[derive(Debug, Drop)]
pub struct Meta {
    pub moment: Moment,
    pub run: u64,
    pub version: u64,
    pub change: u64,
}

/// A file and its text.
#[derive(Debug, Drop)]
pub struct KeptFile {
    pub key: FileKey,
    pub text: Bytes,
}

/// A pipeline, and the file that it is compiled from.
#[derive(Debug, Drop)]
pub struct KeptPipeline {
    pub name: Text,
    pub repo: Text,
    pub path: Text,
}

/// A resource: whether one stage at a time uses it, which pipelines may (None: all), and its
/// checks.
#[derive(Debug, Drop)]
pub struct KeptResource {
    pub key: ResourceKey,
    pub exclusive: bool,
    pub pipelines: Option<List<Text>>,
    pub checks: List<Check>,
}

/// A principal: its roles, and the digest of its token.
#[derive(Debug, Drop)]
pub struct KeptPrincipal {
    pub name: Text,
    pub roles: List<Role>,
    pub digest: Digest,
}

/// An agent: its pool, and its capabilities by name.
#[derive(Debug, Drop)]
pub struct KeptAgent {
    pub name: Text,
    pub pool: Text,
    pub capabilities: List<(Text, Text)>,
}

/// A run: what it was compiled from, who queued it and when, and when it was canceled, if it was.
#[derive(Debug, Drop)]
pub struct KeptRun {
    pub run: u64,
    pub pipeline: Text,
    pub requester: Text,
    pub moment: Moment,
    pub root: FileKey,
    pub arguments: List<Argument>,
    pub files: List<KeptFile>,
    pub canceled: Option<Moment>,
}

/// A stage of a run by its position, when it was started, and how it ended.
#[derive(Debug, Drop)]
pub struct KeptStage {
    pub run: u64,
    pub position: u32,
    pub started: Option<Moment>,
    pub ended: Option<StageEnd>,
}

/// When a stage ended, with which result, and by which rule.
#[derive(Debug, Drop)]
pub struct StageEnd {
    pub moment: Moment,
    pub outcome: Outcome,
    pub rule: Option<Rule>,
}

/// A job of a stage by its position, who took it, and how it ended.
#[derive(Debug, Drop)]
pub struct KeptJob {
    pub run: u64,
    pub stage: u32,
    pub position: u32,
    pub taken: Option<Taking>,
    pub ended: Option<JobEnd>,
}

/// Which agent took a job, and when.
#[derive(Debug, Drop)]
pub struct Taking {
    pub agent: Text,
    pub moment: Moment,
}

/// When a job ended, with which result, by which rule, what was reported, and its outputs.
#[derive(Debug, Drop)]
pub struct JobEnd {
    pub moment: Moment,
    pub outcome: Outcome,
    pub rule: Option<Rule>,
    pub reported: Option<Outcome>,
    pub outputs: List<(Text, Text)>,
}

/// A decision about a stage: who made it, which it was, and when.
#[derive(Debug, Drop)]
pub struct KeptDecision {
    pub run: u64,
    pub stage: u32,
    pub approver: Text,
    pub approve: bool,
    pub moment: Moment,
}
