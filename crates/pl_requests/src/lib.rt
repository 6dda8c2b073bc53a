//! What the service is asked for, by whom and when, and what it answers.
#![tactic(auto)]

mod call;
mod copies;
mod reply;
mod request;
mod settings;
mod well_formed;

pub use call::Call;
pub use pl_checks::{
    Approval, Arguments, BranchControl, BusinessHours, Check, RequiredTemplate, Zone,
};
pub use pl_json::{Json, Member, Members};
pub use pl_rules::{Role, Rule};
pub use reply::{Body, Reply};
pub use request::{JobName, Order, Report, Request};
pub use settings::{AgentSetting, FileText, PipelineSetting, PrincipalSetting, ResourceSetting};
pub use well_formed::{is_request, is_well_formed};
