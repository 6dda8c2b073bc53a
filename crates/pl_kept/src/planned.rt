//! Stages and jobs of the plans of runs.

ghost use Rattle.std.specs.Prelude.{◌≡◌};
ghost use Rattle.std.specs.Option.{option_copied};
ghost use Rattle.pl_kept.specs.Kept.{planned_job, planned_stage};

use pl_journal::Journal;
use pl_plan::{PlanJob, PlanStage};

/// The stage at a place of a run's plan, or None where the run wasn't queued or has no such stage.
pub fn planned_stage(journal: &Journal, run: u64, stage: u32) -> Option<&PlanStage>
    ensures { option_copied result ≡ planned_stage run stage journal.now.facts }
{
    match journal.run(run) {
        Some(queued) => queued.compiled.plan.stages.get(stage as usize),
        None => None,
    }
}

/// The job at a place of such a stage, or None where there is none.
pub fn planned_job(journal: &Journal, run: u64, stage: u32, job: u32) -> Option<&PlanJob>
    ensures { option_copied result ≡ planned_job run stage job journal.now.facts }
{
    match planned_stage(journal, run, stage) {
        Some(planned) => planned.jobs.get(job as usize),
        None => None,
    }
}
