//! A stage as its checks see it.

ghost use Rattle.std.specs.Prelude.{◌≡◌, IfOk};
ghost use Rattle.pl_views.specs.CheckViews as spec;

use crate::marks::step_marks;
use crate::ready::ready_moment;
use pl_base::{ExactCopy, Memory};
use pl_checks::CheckView;
use pl_journal::{Journal, QueuedRun};
use pl_plan::PlanStage;
use std::alloc::Global;

/// A stage of a queued run as its checks see it: who queued the run, what was decided about the
/// stage, since when it is ready, and from its plan the refs to which the run is linked, the
/// template that it extends, and where the steps come from, each leg's among them.
///
/// `stage` is its place in the plan. The plan isn't copied: of each step the label of its job is.
/// Memory may come at any time, and nothing else.
pub fn check_view(
    alloc: Global,
    journal: &Journal,
    queued: &QueuedRun,
    planned: &PlanStage,
    run: u64,
    stage: u32,
) -> Result<CheckView, Memory>
    ensures { IfOk result (λ view. view ≡
        spec.check_view queued.now planned.now run stage journal.now.facts) }
{
    let plan = &queued.compiled.plan;
    let requester = queued.requester.copy(alloc)?;
    let decisions = journal.decisions(alloc, run, stage)?;
    let linked = plan.linked.copy(alloc)?;
    let extends = plan.extends.copy(alloc)?;
    let steps = step_marks(alloc, planned)?;
    Ok(CheckView {
        requester,
        decisions,
        ready: ready_moment(journal, run, planned),
        linked,
        extends,
        steps,
    })
}
