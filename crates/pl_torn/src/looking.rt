//! What rows tell of the service's numbers, of resources, of runs, of their stages and their jobs.
//! Each call answers Memory where memory is wanting, and nothing else then.

ghost use Rattle.std.specs.Prelude.{◌≡◌, IfOk};
ghost use Rattle.std.specs.Option.{option_copied};
ghost use Rattle.pl_torn.specs.Looking as spec;
ghost use Rattle.pl_torn.specs.Seen.{seen_at as spec_seen_at, AreInOrder};

use crate::near::Near;
use crate::seen::{Seen, first_row, job_of, seen_at, stage_of};
use pl_base::{Memory, ResourceKey};
use pl_fields::encoded;
use pl_keeper::{KeptJob, KeptResource, KeptStage, Meta, Record};
use pl_plan::{Plan, PlanStage};
use pl_short::Short;
use std::alloc::Global;

/// The service's numbers, whose row comes before all others.
pub fn meta_told<'s>(all: &'s [Seen<'_>]) -> Option<&'s Meta>
    requires order { AreInOrder all.now }
    ensures { option_copied result ≡ spec.meta_told all.now }
{
    let one = first_row(all)?;
    match &one.kept {
        Some(Record::Meta(told)) => Some(told),
        _ => None,
    }
}

/// What a resource's row tells.
pub(crate) fn resource_told<'s>(
    alloc: Global,
    all: &'s [Seen<'_>],
    key: &ResourceKey,
) -> Result<Option<&'s KeptResource>, Memory>
    requires order { AreInOrder all.now }
    ensures { IfOk result (λ told. option_copied told ≡ spec.resource_told key.now all.now) }
{
    if !key.is_short() {
        return Err(Memory);
    }
    let bytes = encoded(alloc, key)?;
    match seen_at(all, 0, 3, bytes.as_slice()) {
        Some(one) => match &one.kept {
            Some(Record::Resource(told)) => Ok(Some(told)),
            _ => Ok(None),
        },
        None => Ok(None),
    }
}

/// The row of a stage.
pub(crate) fn stage_row<'s, 'r>(
    alloc: Global,
    all: &'s [Seen<'r>],
    near: Near,
    run: u64,
    stage: u32,
) -> Result<Option<&'s Seen<'r>>, Memory>
    requires order { AreInOrder all.now }
    ensures { IfOk result
        (λ row. option_copied row ≡ spec_seen_at (spec.stage_place run stage) all.now) }
{
    let key = encoded(alloc, &(run, stage))?;
    Ok(seen_at(all, near.stage_at(stage), 7, key.as_slice()))
}

/// What a stage's row tells.
pub(crate) fn stage_told<'s>(
    alloc: Global,
    all: &'s [Seen<'_>],
    near: Near,
    run: u64,
    stage: u32,
) -> Result<Option<&'s KeptStage>, Memory>
    requires order { AreInOrder all.now }
    ensures { IfOk result (λ told. option_copied told ≡ spec.stage_told run stage all.now) }
{
    match stage_row(alloc, all, near, run, stage)? {
        Some(one) => Ok(stage_of(one)),
        None => Ok(None),
    }
}

/// The row of a job.
pub(crate) fn job_row<'s, 'r>(
    alloc: Global,
    all: &'s [Seen<'r>],
    near: Near,
    run: u64,
    stage: u32,
    job: u32,
) -> Result<Option<&'s Seen<'r>>, Memory>
    requires order { AreInOrder all.now }
    ensures { IfOk result
        (λ row. option_copied row ≡ spec_seen_at (spec.job_place run stage job) all.now) }
{
    let key = encoded(alloc, &(run, (stage, job)))?;
    Ok(seen_at(all, near.job_at(job), 8, key.as_slice()))
}

/// What a job's row tells.
pub(crate) fn job_told<'s>(
    alloc: Global,
    all: &'s [Seen<'_>],
    near: Near,
    run: u64,
    stage: u32,
    job: u32,
) -> Result<Option<&'s KeptJob>, Memory>
    requires order { AreInOrder all.now }
    ensures { IfOk result (λ told. option_copied told ≡ spec.job_told run stage job all.now) }
{
    match job_row(alloc, all, near, run, stage, job)? {
        Some(one) => Ok(job_of(one)),
        None => Ok(None),
    }
}

/// The plan of a run.
pub(crate) fn plan_told<'s>(
    alloc: Global,
    all: &'s [Seen<'_>],
    near: Near,
    run: u64,
) -> Result<Option<&'s Plan>, Memory>
    requires order { AreInOrder all.now }
    ensures { IfOk result (λ plan. option_copied plan ≡ spec.plan_told run all.now) }
{
    let key = encoded(alloc, &run)?;
    match seen_at(all, near.run, 6, key.as_slice()) {
        Some(one) => match &one.compiled {
            Some(compiled) => Ok(Some(&compiled.plan)),
            None => Ok(None),
        },
        None => Ok(None),
    }
}

/// A stage of the plan of a run.
pub(crate) fn planned_stage<'s>(
    alloc: Global,
    all: &'s [Seen<'_>],
    near: Near,
    run: u64,
    stage: u32,
) -> Result<Option<&'s PlanStage>, Memory>
    requires order { AreInOrder all.now }
    ensures { IfOk result
        (λ planned. option_copied planned ≡ spec.planned_stage run stage all.now) }
{
    match plan_told(alloc, all, near, run)? {
        Some(plan) => Ok(plan.stages.get(stage as usize)),
        None => Ok(None),
    }
}
