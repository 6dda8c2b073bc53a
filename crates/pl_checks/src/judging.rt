ghost use Rattle.std.specs.Prelude.{◌≤◌, IfOk};
ghost use Rattle.pl_checks.specs.Verdicts.{IsVerdict};

use crate::approval::approval_verdict;
use crate::branch::branch_verdict;
use crate::check::Check;
use crate::hours::hours_verdict;
use crate::template::template_verdict;
use crate::view::{CheckView, Verdict};
use pl_base::{Memory, Moment};
use std::alloc::Global;

/// What a check says of a stage at a moment (Microsoft Learn, Azure Pipelines, "Define approvals
/// and checks").
///
/// A required template and branch control pass or fail. An approval fails where a listed approver
/// who counts has rejected, passes where enough have approved, and else waits until its minutes
/// after the stage was ready are over. Business hours pass within their days and minutes, and else
/// wait as long. Memory comes where there is none to tell the rule or to read a step's origin.
pub fn verdict(
    alloc: Global,
    check: &Check,
    view: &CheckView,
    moment: Moment,
) -> Result<Verdict, Memory>
    requires moment { moment ≤ 4102444799 }
    requires ready { view.now.ready ≤ 4102444799 }
    ensures { IfOk result (λ verdict. IsVerdict check.now view.now moment verdict) }
{
    match check {
        Check::RequiredTemplate(check) => template_verdict(alloc, check, view),
        Check::Branch(check) => branch_verdict(alloc, check, view),
        Check::Approval(check) => approval_verdict(alloc, check, view, moment),
        Check::Hours(check) => Ok(hours_verdict(check, view, moment)),
    }
}
