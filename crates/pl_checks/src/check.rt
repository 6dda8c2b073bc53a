use pl_base::{FileKey, List, Text};
use pl_rules::Day;
use pl_zones::Zone;

/// What guards a resource: a stage that uses it starts only where each of its checks passes
/// (Microsoft Learn, Azure Pipelines, "Define approvals and checks").
#[derive(Debug, Drop)]
pub enum Check {
    /// The run extends one of these templates (Required template).
    RequiredTemplate(RequiredTemplate),
    /// The run's refs match patterns (Branch control).
    Branch(BranchControl),
    /// People approve (Approvals).
    Approval(Approval),
    /// It is a time of the week (Business hours).
    Hours(BusinessHours),
}

/// Which templates a run may extend, and what may come into its steps beside them.
#[derive(Debug, Drop)]
pub struct RequiredTemplate {
    pub templates: List<FileKey>,
    pub arguments: Arguments,
}

/// What a run's arguments may do with the steps of its template.
#[derive(Clone, Copy, Debug, PartialEq, Eq)]
pub enum Arguments {
    /// They may bring whole steps.
    Any,
    /// They may bring values into steps, whose mapping and first key stand in the template.
    Values,
}

/// The patterns of refs, of which each linked ref matches one.
#[derive(Debug, Drop)]
pub struct BranchControl {
    pub patterns: List<Text>,
}

/// Who may approve, how many of them have to, whether the one who queued the run counts among
/// them, and for how many minutes after the stage was ready they may still do so.
#[derive(Debug, Drop)]
pub struct Approval {
    pub approvers: List<Text>,
    pub least: u32,
    pub requester: bool,
    pub minutes: u32,
}

/// The days and, of each, the minutes from `start` to before `end` in a zone, and for how many
/// minutes after the stage was ready it may wait for them.
#[derive(Debug, Drop)]
pub struct BusinessHours {
    pub days: List<Day>,
    pub zone: Zone,
    pub start: u32,
    pub end: u32,
    pub minutes: u32,
}
