//! What has happened in the service: facts with their moments, and the entries of its history.
#![tactic(auto)]

mod copies;
mod entry;
mod fact;
mod sizes;

pub use entry::Entry;
pub use fact::{Event, Fact, QueuedRun};
pub use pl_plan::Compiled;
pub use pl_requests::{
    AgentSetting, Approval, Arguments, Body, BranchControl, BusinessHours, Call, Check, FileText,
    JobName, Json, Member, Members, Order, PipelineSetting, PrincipalSetting, Reply, Report,
    Request, RequiredTemplate, ResourceSetting, Role, Rule, Zone,
};
pub use sizes::{facts_size, fits, size_of, size_with};
