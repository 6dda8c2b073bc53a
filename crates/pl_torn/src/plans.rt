//! Whether each stage and each job of a plan has its row.

ghost use Rattle.std.specs.Prelude.{◌≡◌, ◌+◌, ◌||◌, is_none, IfOk};
ghost use Rattle.std.specs.Option.{option_copied};
ghost use Rattle.pl_torn.specs.Looking.{job_place, stage_place};
ghost use Rattle.pl_torn.specs.Plans as spec;
ghost use Rattle.pl_torn.specs.Seen.{seen_at, AreInOrder};

use crate::looking::{job_row, stage_row};
use crate::near::Near;
use crate::seen::Seen;
use pl_base::{Memory, Shared};
use pl_keeper::{KeptRun, Meta};
use pl_plan::{Compiled, PlanJob, PlanStage};
use std::alloc::Global;

/// Whether the sources of a run don't compile to a plan of these same sources, or a stage or a job
/// of it has no row.
pub(crate) fn lacks_rows(
    alloc: Global,
    all: &[Seen<'_>],
    near: Near,
    compiled: &Option<Shared<Compiled>>,
    told: &KeptRun,
) -> Result<bool, Memory>
    requires order { AreInOrder all.now }
    ensures { IfOk result (λ lacks. lacks ≡ spec.lacks_rows all.now compiled.now told.now) }
{
    match compiled {
        Some(compiled) => lack_stage(alloc, all, near, told.run, compiled.plan.stages.as_slice()),
        None => Ok(true),
    }
}

/// Whether a stage, or a job of it, has no row.
fn lack_stage(
    alloc: Global,
    all: &[Seen<'_>],
    near: Near,
    run: u64,
    stages: &[PlanStage],
) -> Result<bool, Memory>
    requires order { AreInOrder all.now }
    ensures { IfOk result (λ lacks. lacks ≡ spec.lack_stage all.now run 0 stages.now) }
{
    let mut at: u32 = 0;
    let mut near = near;
    for stage in stages {
        if lacks_stage(alloc, all, near, run, at, stage)? {
            return Ok(true);
        }
        at = next(at)?;
        near = near.behind_jobs(stage.jobs.len());
    }
    Ok(false)
}

/// Whether a stage at a place, or a job of it, has no row.
fn lacks_stage(
    alloc: Global,
    all: &[Seen<'_>],
    near: Near,
    run: u64,
    at: u32,
    stage: &PlanStage,
) -> Result<bool, Memory>
    requires order { AreInOrder all.now }
    ensures { IfOk result (λ lacks. lacks ≡ (is_none (seen_at (stage_place run at) all.now) ||
        spec.lack_job all.now run at 0 stage.now.jobs)) }
{
    if stage_row(alloc, all, near, run, at)?.is_none() {
        return Ok(true);
    }
    lack_job(alloc, all, near, run, at, stage.jobs.as_slice())
}

/// Whether a job of a stage has no row.
fn lack_job(
    alloc: Global,
    all: &[Seen<'_>],
    near: Near,
    run: u64,
    stage: u32,
    jobs: &[PlanJob],
) -> Result<bool, Memory>
    requires order { AreInOrder all.now }
    ensures { IfOk result (λ lacks. lacks ≡ spec.lack_job all.now run stage 0 jobs.now) }
{
    let mut at: u32 = 0;
    for _job in jobs {
        if lacks_job(alloc, all, near, run, stage, at)? {
            return Ok(true);
        }
        at = next(at)?;
    }
    Ok(false)
}

/// Whether a job at a place of a stage has no row.
fn lacks_job(
    alloc: Global,
    all: &[Seen<'_>],
    near: Near,
    run: u64,
    stage: u32,
    at: u32,
) -> Result<bool, Memory>
    requires order { AreInOrder all.now }
    ensures { IfOk result (λ lacks. lacks ≡ is_none (seen_at (job_place run stage at) all.now)) }
{
    let row = job_row(alloc, all, near, run, stage, at)?;
    Ok(row.is_none())
}

/// The place behind this one. A list has fewer than 2^32 of them: one more is want of memory.
pub(crate) fn next(at: u32) -> Result<u32, Memory>
    ensures { IfOk result (λ next. next ≡ at + 1) }
{
    match at.checked_add(1) {
        Some(next) => Ok(next),
        None => Err(Memory),
    }
}

/// Whether a run is above the one that was queued last.
pub(crate) fn is_above(numbers: Option<&Meta>, told: &KeptRun) -> bool
    ensures { result ≡ spec.is_above (option_copied numbers.entry) told.now }
{
    match numbers {
        Some(one) => one.run < told.run,
        None => false,
    }
}
