//! The first row that doesn't stand together with the others.

ghost use Rattle.std.specs.Prelude.{◌≡◌, ◌≤◌, length, take, IfOk};
ghost use Rattle.std.specs.Option.{option_copied};
ghost use Rattle.pl_torn.specs.Seen.{AreInOrder};
ghost use Rattle.pl_torn.specs.Torn as spec;

use crate::exclusive::is_held;
use crate::holding::{has_other, is_leg_too_many, is_out_of_stage};
use crate::looking::{meta_told, plan_told, planned_stage, stage_told};
use crate::moments::{is_job_late, is_job_off, is_late, is_run_late, is_stage_late, is_stage_off};
use crate::names::{is_reserved_pipeline, is_reserved_principal};
use crate::near::Near;
use crate::plans::{is_above, lacks_rows};
use crate::seen::{Seen, stands_at};
use pl_base::{Digest, Memory, Shared};
use pl_keeper::{KeptDecision, KeptJob, KeptRun, KeptStage, Record};
use pl_plan::{Compiled, PlanJob, PlanStage};
use std::alloc::Global;

/// The first row, in order of table and key, at which one of these fails, or None where none does.
///
/// The first row is that of the service's numbers, no two stand at one place, and each is a
/// record's that is within the limits. No name is reserved, and no two principals have one digest,
/// nor one that of `admin`. A run's sources compile to a plan of these same sources, its number is
/// at most the last one's, each stage and job of its plan has its row, and there is no other row of
/// a stage or a job, and no decision about a stage that isn't there. No job is taken or has ended
/// in a stage that wasn't started, and none goes on in one that was and has ended; an agent holds
/// one job at most, and no more legs of a job are held than may be at once. What was started or
/// taken waited for the ends of what it waits for, nothing ended before it began, and no moment is
/// above that of the last entry. No two stages run on one exclusive resource.
///
/// What is wrong between two rows is so at the later one, and where a row is wanting, at its run's.
/// Memory where memory is wanting.
pub fn torn<'s, 'r>(
    alloc: Global,
    admin: &Digest,
    all: &'s [Seen<'r>],
) -> Result<Option<&'s Seen<'r>>, Memory>
    requires order { AreInOrder all.now }
    ensures { IfOk result (λ found. option_copied found ≡ spec.torn admin.now all.now) }
{
    let mut near = Near::first();
    for (at, one) in all.iter().enumerate() {
        let before = in_front(all, at);
        near = near.moved(all, at, one);
        if is_bad(alloc, admin, all, before, near, one)? {
            return Ok(Some(one));
        }
    }
    Ok(None)
}

/// The rows in front of a place.
fn in_front<'s, 'r>(all: &'s [Seen<'r>], at: usize) -> &'s [Seen<'r>]
    requires within { at ≤ length all.now }
    ensures { result.now ≡ take at all.now }
{
    all.split_at(at).0
}

/// Whether a row is bad, with those before it in front.
fn is_bad(
    alloc: Global,
    admin: &Digest,
    all: &[Seen<'_>],
    before: &[Seen<'_>],
    near: Near,
    one: &Seen<'_>,
) -> Result<bool, Memory>
    requires order { AreInOrder all.now }
    ensures { IfOk result (λ is. is ≡ spec.is_bad admin.now all.now before.now one.now) }
{
    if lacks_numbers(before, one) {
        return Ok(true);
    }
    if is_second(before, one) {
        return Ok(true);
    }
    match &one.kept {
        Some(kept) => is_bad_record(alloc, admin, all, before, near, &one.compiled, kept),
        None => Ok(true),
    }
}

/// Whether the first row isn't that of the service's numbers.
fn lacks_numbers(before: &[Seen<'_>], one: &Seen<'_>) -> bool
    ensures { result ≡ spec.lacks_numbers before.now one.now }
{
    before.is_empty() && !matches!(&one.kept, Some(Record::Meta(_)))
}

/// Whether a row stands where the one in front stands.
fn is_second(before: &[Seen<'_>], one: &Seen<'_>) -> bool
    ensures { result ≡ spec.is_second before.now one.now }
{
    match before.last() {
        Some(last) => stands_at(last.row, one.row.table, one.row.key.as_slice()),
        None => false,
    }
}

/// Whether what a row says is bad.
fn is_bad_record(
    alloc: Global,
    admin: &Digest,
    all: &[Seen<'_>],
    before: &[Seen<'_>],
    near: Near,
    compiled: &Option<Shared<Compiled>>,
    kept: &Record,
) -> Result<bool, Memory>
    requires order { AreInOrder all.now }
    ensures { IfOk result (λ is. is ≡
        spec.is_bad_record admin.now all.now before.now compiled.now kept.now) }
{
    match kept {
        Record::Pipeline(told) => Ok(is_reserved_pipeline(told)),
        Record::Principal(told) => Ok(is_reserved_principal(admin, before, told)),
        Record::Run(told) => is_bad_run(alloc, all, near, compiled, told),
        Record::Stage(told) => is_bad_stage(alloc, all, before, near, told),
        Record::Job(told) => is_bad_job(alloc, all, before, near, told),
        Record::Decision(told) => is_bad_decision(alloc, all, near, told),
        Record::Meta(_) | Record::File(_) | Record::Resource(_) | Record::Agent(_) => Ok(false),
    }
}

/// Whether a run's row is bad.
fn is_bad_run(
    alloc: Global,
    all: &[Seen<'_>],
    near: Near,
    compiled: &Option<Shared<Compiled>>,
    told: &KeptRun,
) -> Result<bool, Memory>
    requires order { AreInOrder all.now }
    ensures { IfOk result (λ is. is ≡ spec.is_bad_run all.now compiled.now told.now) }
{
    let numbers = meta_told(all);
    Ok(
        lacks_rows(alloc, all, near, compiled, told)?
            || is_above(numbers, told)
            || is_run_late(numbers, told),
    )
}

/// Whether a stage's row is bad.
fn is_bad_stage(
    alloc: Global,
    all: &[Seen<'_>],
    before: &[Seen<'_>],
    near: Near,
    told: &KeptStage,
) -> Result<bool, Memory>
    requires order { AreInOrder all.now }
    ensures { IfOk result (λ is. is ≡ spec.is_bad_stage all.now before.now told.now) }
{
    let Some(plan) = plan_told(alloc, all, near, told.run)? else {
        return Ok(true);
    };
    let stages = plan.stages.as_slice();
    match stages.get(told.position as usize) {
        Some(planned) => is_bad_stage_of(alloc, all, before, near, stages, told, planned),
        None => Ok(true),
    }
}

/// Whether the row of a stage that is planned is bad.
fn is_bad_stage_of(
    alloc: Global,
    all: &[Seen<'_>],
    before: &[Seen<'_>],
    near: Near,
    stages: &[PlanStage],
    told: &KeptStage,
    planned: &PlanStage,
) -> Result<bool, Memory>
    requires order { AreInOrder all.now }
    ensures { IfOk result (λ is. is ≡
        spec.is_bad_stage_of all.now before.now stages.now told.now planned.now) }
{
    if is_stage_off(alloc, all, near, stages, planned, told)? {
        return Ok(true);
    }
    if is_stage_late(meta_told(all), told) {
        return Ok(true);
    }
    is_held(alloc, all, before, planned, told)
}

/// Whether a job's row is bad.
fn is_bad_job(
    alloc: Global,
    all: &[Seen<'_>],
    before: &[Seen<'_>],
    near: Near,
    told: &KeptJob,
) -> Result<bool, Memory>
    requires order { AreInOrder all.now }
    ensures { IfOk result (λ is. is ≡ spec.is_bad_job all.now before.now told.now) }
{
    let Some(planned) = planned_stage(alloc, all, near, told.run, told.stage)? else {
        return Ok(true);
    };
    match planned.jobs.get(told.position as usize) {
        Some(job) => is_bad_job_of(alloc, all, before, near, told, planned, job),
        None => Ok(true),
    }
}

/// Whether the row of a job that is planned is bad.
fn is_bad_job_of(
    alloc: Global,
    all: &[Seen<'_>],
    before: &[Seen<'_>],
    near: Near,
    told: &KeptJob,
    planned: &PlanStage,
    job: &PlanJob,
) -> Result<bool, Memory>
    requires order { AreInOrder all.now }
    ensures { IfOk result (λ is. is ≡
        spec.is_bad_job_of all.now before.now told.now planned.now job.now) }
{
    let stage = stage_told(alloc, all, near, told.run, told.stage)?;
    if is_out_of_stage(stage, told) {
        return Ok(true);
    }
    if has_other(before, told) {
        return Ok(true);
    }
    if is_leg_too_many(planned, job, before, told) {
        return Ok(true);
    }
    if is_job_off(alloc, all, near, planned.jobs.as_slice(), job, told)? {
        return Ok(true);
    }
    Ok(is_job_late(meta_told(all), told))
}

/// Whether a decision's row is bad.
fn is_bad_decision(
    alloc: Global,
    all: &[Seen<'_>],
    near: Near,
    told: &KeptDecision,
) -> Result<bool, Memory>
    requires order { AreInOrder all.now }
    ensures { IfOk result (λ is. is ≡ spec.is_bad_decision all.now told.now) }
{
    let planned = planned_stage(alloc, all, near, told.run, told.stage)?;
    Ok(planned.is_none() || is_late(meta_told(all), told.moment))
}
