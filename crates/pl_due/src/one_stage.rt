ghost use Rattle.std.specs.Prelude.{◌≤◌, IfOk};
ghost use Rattle.pl_due.specs.Checked.{all_checks};
ghost use Rattle.pl_due.specs.Fit.{AreFit, last_moment};
ghost use Rattle.pl_due.specs.Nodes.{IsStageOf};
ghost use Rattle.pl_judgement.specs.Said.{IsJudgement};
ghost use Rattle.pl_views.specs.CheckViews as views;

use crate::judging::judgement;
use crate::stage_at::StageAt;
use pl_base::{Memory, Moment};
use pl_facts::QueuedRun;
use pl_journal::Journal;
use pl_judgement::Judgement;
use pl_plan::PlanStage;
use std::alloc::Global;

/// What the checks of all that a stage uses say of it at a moment: the rule by which the first
/// fails that fails, and the rule by which the first waits that waits; first by the checks' kind
/// (required template, branch, approval, hours), then by use, then by place.
///
/// The stage is the one at this place of the plan of a run that was queued so. Each fact's moment
/// is one that a clock tells, and each run's plan can run, as `due` asks. Memory comes where there
/// is none, and nothing else.
pub fn judgement_of(
    alloc: Global,
    journal: &Journal,
    moment: Moment,
    run: u64,
    stage: u32,
    queued: &QueuedRun,
    planned: &PlanStage,
) -> Result<Judgement, Memory>
    requires moment { moment ≤ last_moment }
    requires fit { AreFit journal.now.facts }
    requires there { IsStageOf journal.now.facts run stage queued.now planned.now }
    ensures { IfOk result (IsJudgement (all_checks journal.now.facts planned.now.uses)
        (views.check_view queued.now planned.now run stage journal.now.facts) moment) }
{
    judgement(
        alloc,
        &StageAt {
            journal,
            moment,
            run,
            stage,
            queued,
            planned,
        },
    )
}
