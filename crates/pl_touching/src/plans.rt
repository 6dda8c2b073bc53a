//! The rows of a plan's stages and jobs.

ghost use Rattle.std.specs.Prelude.{◌≡◌, ◌+◌, IfOk, OnOk};
ghost use Rattle.pl_changes.specs.Differing.{Apart, Joins};
ghost use Rattle.pl_touched.specs.Touched.{job_places, rows_at, stage_places, FitAt};

use crate::places::add_at;
use pl_base::{Memory, Row};
use pl_plan::{PlanJob, PlanStage};
use pl_spots::Spot;
use pl_touched::Journal;
use std::alloc::Global;

/// Adds the rows of a run's stages and of their jobs.
pub(crate) fn add_stages(
    alloc: Global,
    journal: &Journal,
    rows: &mut Vec<Row>,
    run: u64,
    stages: &[PlanStage],
) -> Result<(), Memory>
    ensures apart { Apart rows.old.items → Apart rows.new.items }
    ensures joins { OnOk result (Joins rows.old.items
        (rows_at (stage_places run 0 stages.now) journal.now.facts) rows.new.items) }
    ensures fits { OnOk result (FitAt (stage_places run 0 stages.now) journal.now.facts) }
{
    let mut at: u32 = 0;
    for stage in stages {
        add_at(alloc, journal, rows, Spot::Stage(run, at))?;
        add_jobs(alloc, journal, rows, run, at, stage.jobs.as_slice())?;
        at = next(at)?;
    }
    Ok(())
}

/// Adds the rows of a stage's jobs.
fn add_jobs(
    alloc: Global,
    journal: &Journal,
    rows: &mut Vec<Row>,
    run: u64,
    stage: u32,
    jobs: &[PlanJob],
) -> Result<(), Memory>
    ensures apart { Apart rows.old.items → Apart rows.new.items }
    ensures joins { OnOk result (Joins rows.old.items
        (rows_at (job_places run stage 0 jobs.now) journal.now.facts) rows.new.items) }
    ensures fits { OnOk result (FitAt (job_places run stage 0 jobs.now) journal.now.facts) }
{
    let mut at: u32 = 0;
    for _job in jobs {
        add_at(alloc, journal, rows, Spot::Job(run, stage, at))?;
        at = next(at)?;
    }
    Ok(())
}

/// The place behind this one. A list has fewer than 2^32 of them: one more is want of memory.
fn next(at: u32) -> Result<u32, Memory>
    ensures { IfOk result (λ next. next ≡ at + 1) }
{
    match at.checked_add(1) {
        Some(next) => Ok(next),
        None => Err(Memory),
    }
}
