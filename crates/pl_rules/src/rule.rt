use crate::day::Day;
use crate::role::Role;
use crate::state::State;
use pl_base::{List, Outcome, Refusal, ResourceKey, Text};

/// A rule by which the service refuses a request, lets a stage wait, or ends a stage or a job, with
/// what is told beside its name.
#[derive(Debug, Drop)]
pub enum Rule {
    /// `job.unknown`: the run, the stage or the job isn't there.
    JobUnknown,
    /// `job.ended`: its result, and the name of the rule that ended it, or `report`.
    JobEnded { result: Outcome, by: Text },
    /// `job.taken`: another agent holds it.
    JobTaken { agent: Text },
    /// `agent.busy`: the agent holds another job.
    AgentBusy { run: u64, stage: Text, job: Text },
    /// `pool.mismatch`: the agent's pool, and the job's.
    PoolMismatch { have: Text, need: Text },
    /// `capability.missing`: the demand that the agent doesn't meet.
    CapabilityMissing { name: Text },
    /// `stage.depends`: the stage that the job's stage waits for.
    StageDepends { stage: Text },
    /// `permission.missing`: the resource that the pipeline may not use.
    PermissionMissing { resource: ResourceKey },
    /// `approval.open`: how many have approved, and how many are needed.
    ApprovalOpen { have: u64, need: u32 },
    /// `hours.closed`: the day and the minute of that day at the place of the business hours.
    HoursClosed { day: Day, minute: u32 },
    /// `lock.held`: who holds the resource.
    LockHeld { run: u64, stage: Text },
    /// `lock.behind`: who comes first.
    LockBehind { run: u64, stage: Text },
    /// `job.depends`: the job that this one waits for.
    JobDepends { job: Text },
    /// `parallel.full`: how many legs may run at once.
    ParallelFull { limit: u32 },
    /// `condition.false`.
    ConditionFalse,
    /// `run.canceled`.
    RunCanceled,
    /// `job.timeout`.
    JobTimeout,
    /// `template.required`: the run doesn't extend a template that the resource asks for.
    TemplateRequired,
    /// `template.argument`: the step, counted from 1, that isn't the template's own.
    TemplateArgument { job: Text, step: u32 },
    /// `branch.refused`: the ref that no pattern matches.
    BranchRefused { git_ref: Text },
    /// `approval.rejected`: who rejected.
    ApprovalRejected { approver: Text },
    /// `approval.timeout`.
    ApprovalTimeout,
    /// `hours.timeout`.
    HoursTimeout,
    /// `lock.superseded`: the later run.
    LockSuperseded { run: u64 },
    /// `token.unknown`.
    TokenUnknown,
    /// `role.missing`: the roles of which one is needed.
    RoleMissing { need: List<Role> },
    /// `keeper.fault`.
    KeeperFault,
    /// `memory`.
    Memory,
    /// `none`: no rule is broken.
    NoRule,
    /// `journal.full`.
    JournalFull,
    /// `file.unknown`.
    FileUnknown,
    /// `pipeline.unknown`.
    PipelineUnknown,
    /// `run.unknown`.
    RunUnknown,
    /// `stage.unknown`.
    StageUnknown,
    /// `agent.unknown`.
    AgentUnknown,
    /// `approver.unlisted`.
    ApproverUnlisted,
    /// `approver.requester`.
    ApproverRequester,
    /// `principal.reserved`.
    PrincipalReserved,
    /// `pipeline.reserved`.
    PipelineReserved,
    /// `run.ended`.
    RunEnded,
    /// `decision.closed`: how far the stage has come.
    DecisionClosed { state: State },
    /// `decision.changed`: the decision that was kept.
    DecisionChanged { approve: bool },
    /// `report.stranger`: the agent that took the job, if one did.
    ReportStranger { agent: Option<Text> },
    /// `report.changed`: the result that was reported.
    ReportChanged { result: Outcome },
    /// `resource.busy`: two stages that are running on the resource.
    ResourceBusy { stages: List<(u64, Text)> },
    /// `token.taken`: whose token it is.
    TokenTaken { name: Text },
    /// `resource.unknown`: the resource that isn't there.
    ResourceUnknown { resource: ResourceKey },
    /// `compile.refused`: why the pipeline doesn't compile.
    CompileRefused { refusal: Refusal },
    /// `head.large`.
    HeadLarge,
    /// `head.bad`.
    HeadBad,
    /// `length.missing`.
    LengthMissing,
    /// `body.large`.
    BodyLarge,
    /// `route.unknown`.
    RouteUnknown,
    /// `method.unknown`.
    MethodUnknown,
    /// `body.bad`.
    BodyBad,
}
