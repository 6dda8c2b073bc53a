ghost use Rattle.std.specs.Prelude.{◌≡◌};
ghost use Rattle.pl_limits.specs.Limits.{is_ending};

use crate::numbers::is_run;
use pl_names::is_name;
use pl_rules::Rule;

/// Whether what a rule tells that ends a stage or a job is within its limits: who rejected has a
/// name, a step is from 1 to 2,000, a run's number is one. A job and a ref have no limit.
pub fn is_ending(rule: &Rule) -> bool
    ensures { result ≡ is_ending rule.now }
{
    match rule {
        Rule::ApprovalRejected { approver } => is_name(approver.as_str()),
        Rule::TemplateArgument { step, .. } => 1 <= *step && *step <= 2_000,
        Rule::LockSuperseded { run } => is_run(*run),
        _ => true,
    }
}
