//! Approvals and checks: what guards a resource, and whether a stage passes it.
#![tactic(auto)]

mod approval;
mod branch;
mod check;
mod hours;
mod judging;
mod laws;
mod patterns;
mod provenance;
mod template;
mod view;

pub use check::{Approval, Arguments, BranchControl, BusinessHours, Check, RequiredTemplate};
pub use judging::verdict;
pub use laws::verdict_laws;
pub use patterns::matches;
pub use pl_zones::{Zone, ZoneFault, zone_of};
pub use view::{CheckView, StepMark, Verdict};
