//! The rows of a plan's stages and jobs.

ghost use Rattle.std.specs.Prelude.{◌≡◌, ◌+◌, ◌++◌, IfOk, OnOk};
ghost use Rattle.pl_touched.specs.Touched.{job_places, rows_at, stage_places, FitAt};

use crate::places::push_at;
use pl_base::{Memory, Row};
use pl_journal::Journal;
use pl_plan::{PlanJob, PlanStage};
use pl_row_changes::Spot;
use std::alloc::Global;

/// Puts the rows of a run's stages and of their jobs behind the others.
pub(crate) fn push_stages(
    alloc: Global,
    journal: &Journal,
    rows: &mut Vec<Row>,
    run: u64,
    stages: &[PlanStage],
) -> Result<(), Memory>
    ensures rows { OnOk result (rows.new.items ≡ rows.old.items ++
        rows_at (stage_places run 0 stages.now) journal.now.facts) }
    ensures fits { OnOk result (FitAt (stage_places run 0 stages.now) journal.now.facts) }
{
    let mut at: u32 = 0;
    for stage in stages {
        push_at(alloc, journal, rows, Spot::Stage(run, at))?;
        push_jobs(alloc, journal, rows, run, at, stage.jobs.as_slice())?;
        at = next(at)?;
    }
    Ok(())
}

/// Puts the rows of a stage's jobs behind the others.
fn push_jobs(
    alloc: Global,
    journal: &Journal,
    rows: &mut Vec<Row>,
    run: u64,
    stage: u32,
    jobs: &[PlanJob],
) -> Result<(), Memory>
    ensures rows { OnOk result (rows.new.items ≡ rows.old.items ++
        rows_at (job_places run stage 0 jobs.now) journal.now.facts) }
    ensures fits { OnOk result (FitAt (job_places run stage 0 jobs.now) journal.now.facts) }
{
    let mut at: u32 = 0;
    for _job in jobs {
        push_at(alloc, journal, rows, Spot::Job(run, stage, at))?;
        at = next(at)?;
    }
    Ok(())
}

/// The place behind this one. A list has fewer than 2^32 of them: one more is want of memory.
fn next(at: u32) -> Result<u32, Memory>
    ensures { IfOk result (λ next. next ≡ at + 1) }
{
    match at.checked_add(1) {
        Some(next) => Ok(next),
        None => Err(Memory),
    }
}
