//! Rules.

use crate::short::Short;
use pl_rules::Rule;

/// A rule that ends no stage and no job has no number, and can't be written.
impl Short for Rule {
    fn is_short(&self) -> bool {
        match self {
            Rule::ConditionFalse
            | Rule::RunCanceled
            | Rule::JobTimeout
            | Rule::TemplateRequired
            | Rule::ApprovalTimeout
            | Rule::HoursTimeout
            | Rule::LockSuperseded { .. } => true,
            Rule::TemplateArgument { job, .. } => job.is_short(),
            Rule::BranchRefused { git_ref } => git_ref.is_short(),
            Rule::ApprovalRejected { approver } => approver.is_short(),
            _ => false,
        }
    }
}
