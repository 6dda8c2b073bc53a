//! Whether moments stand together.

ghost use Rattle.std.specs.Prelude.{◌≡◌, ◌&&◌, nat_eq, nat_lt, IfOk};
ghost use Rattle.std.specs.List.{list_any};
ghost use Rattle.std.specs.Option.{option_copied};
ghost use Rattle.pl_torn.specs.Moments as spec;
ghost use Rattle.pl_torn.specs.Seen.{AreInOrder};

use crate::looking::{job_told, stage_told};
use crate::near::Near;
use crate::plans::next;
use crate::seen::Seen;
use pl_base::{Memory, Moment};
use pl_keeper::{KeptJob, KeptRun, KeptStage, Meta};
use pl_plan::{PlanJob, PlanStage};
use std::alloc::Global;

/// Whether a moment is above that of the last entry.
pub(crate) fn is_late(numbers: Option<&Meta>, moment: Moment) -> bool
    ensures { result ≡ spec.is_late (option_copied numbers.entry) moment }
{
    match numbers {
        Some(told) => told.moment < moment,
        None => false,
    }
}

/// The same of a moment that may be there.
fn may_be_late(numbers: Option<&Meta>, moment: Option<Moment>) -> bool
    ensures { result ≡ spec.may_be_late (option_copied numbers.entry) moment }
{
    match moment {
        Some(moment) => is_late(numbers, moment),
        None => false,
    }
}

/// Whether an end stands before its start.
fn ends_early(begun: Option<Moment>, ended: Option<Moment>) -> bool
    ensures { result ≡ spec.ends_early begun ended }
{
    match (begun, ended) {
        (Some(begun), Some(ended)) => ended < begun,
        _ => false,
    }
}

/// Whether something began at a moment at which what it waits for hadn't ended.
fn starts_early(begun: Option<Moment>, ended: Option<Moment>) -> bool
    ensures { result ≡ spec.starts_early begun ended }
{
    match (begun, ended) {
        (None, _) => false,
        (Some(begun), Some(ended)) => begun < ended,
        (Some(_), None) => true,
    }
}

/// Whether a run was queued or canceled above that of the last entry.
pub(crate) fn is_run_late(numbers: Option<&Meta>, told: &KeptRun) -> bool
    ensures { result ≡ spec.is_run_late (option_copied numbers.entry) told.now }
{
    is_late(numbers, told.moment) || may_be_late(numbers, told.canceled)
}

/// When a stage ended.
fn stage_ended(told: &KeptStage) -> Option<Moment>
    ensures { result ≡ spec.stage_ended told.now }
{
    match &told.ended {
        Some(ended) => Some(ended.moment),
        None => None,
    }
}

/// When a job was taken.
fn job_begun(told: &KeptJob) -> Option<Moment>
    ensures { result ≡ spec.job_begun told.now }
{
    match &told.taken {
        Some(taking) => Some(taking.moment),
        None => None,
    }
}

/// When a job ended.
fn job_ended(told: &KeptJob) -> Option<Moment>
    ensures { result ≡ spec.job_ended told.now }
{
    match &told.ended {
        Some(ended) => Some(ended.moment),
        None => None,
    }
}

/// Whether a stage was started or ended above that of the last entry.
pub(crate) fn is_stage_late(numbers: Option<&Meta>, told: &KeptStage) -> bool
    ensures { result ≡ spec.is_stage_late (option_copied numbers.entry) told.now }
{
    may_be_late(numbers, told.started) || may_be_late(numbers, stage_ended(told))
}

/// Whether a job was taken or ended above that of the last entry.
pub(crate) fn is_job_late(numbers: Option<&Meta>, told: &KeptJob) -> bool
    ensures { result ≡ spec.is_job_late (option_copied numbers.entry) told.now }
{
    may_be_late(numbers, job_begun(told)) || may_be_late(numbers, job_ended(told))
}

/// Whether a place is among some.
fn is_among(places: &[u32], at: u32) -> bool
    ensures { result ≡ list_any (nat_eq at) places.now }
{
    places.iter().any(|other| at == *other)
}

/// When the stage at a place was started.
fn started_at(
    alloc: Global,
    all: &[Seen<'_>],
    near: Near,
    run: u64,
    stage: u32,
) -> Result<Option<Moment>, Memory>
    requires order { AreInOrder all.now }
    ensures { IfOk result (λ begun. begun ≡ spec.started_at all.now run stage) }
{
    match stage_told(alloc, all, near, run, stage)? {
        Some(told) => Ok(told.started),
        None => Ok(None),
    }
}

/// When it ended.
fn stage_ended_at(
    alloc: Global,
    all: &[Seen<'_>],
    near: Near,
    run: u64,
    stage: u32,
) -> Result<Option<Moment>, Memory>
    requires order { AreInOrder all.now }
    ensures { IfOk result (λ ended. ended ≡ spec.stage_ended_at all.now run stage) }
{
    match stage_told(alloc, all, near, run, stage)? {
        Some(told) => Ok(stage_ended(told)),
        None => Ok(None),
    }
}

/// Whether a stage began before the end of one in front for which it waits.
fn stage_starts_before(
    alloc: Global,
    all: &[Seen<'_>],
    near: Near,
    depends: &[u32],
    told: &KeptStage,
) -> Result<bool, Memory>
    requires order { AreInOrder all.now }
    ensures { IfOk result (λ is. is ≡ spec.starts_before (spec.stage_ended_at all.now told.now.run)
        depends.now told.now.position told.now.started) }
{
    for other in depends {
        if stage_is_early(alloc, all, near, *other, told)? {
            return Ok(true);
        }
    }
    Ok(false)
}

/// Whether a stage began before the end of one that is in front.
fn stage_is_early(
    alloc: Global,
    all: &[Seen<'_>],
    near: Near,
    other: u32,
    told: &KeptStage,
) -> Result<bool, Memory>
    requires order { AreInOrder all.now }
    ensures { IfOk result (λ is. is ≡ (nat_lt other told.now.position && spec.starts_early
        told.now.started (spec.stage_ended_at all.now told.now.run other))) }
{
    if other >= told.position {
        return Ok(false);
    }
    let ended = stage_ended_at(alloc, all, near, told.run, other)?;
    Ok(starts_early(told.started, ended))
}

/// Whether one in front that waits for a stage was started before its end.
fn stage_ends_behind(
    alloc: Global,
    all: &[Seen<'_>],
    near: Near,
    stages: &[PlanStage],
    told: &KeptStage,
) -> Result<bool, Memory>
    requires order { AreInOrder all.now }
    ensures { IfOk result (λ is. is ≡ spec.stage_ends_behind all.now told.now 0 stages.now) }
{
    let mut at: u32 = 0;
    for other in stages {
        if other_stage_is_early(alloc, all, near, at, other, told)? {
            return Ok(true);
        }
        at = next(at)?;
    }
    Ok(false)
}

/// Whether the stage at a place is in front, waits for a stage and was started before its end.
fn other_stage_is_early(
    alloc: Global,
    all: &[Seen<'_>],
    near: Near,
    at: u32,
    other: &PlanStage,
    told: &KeptStage,
) -> Result<bool, Memory>
    requires order { AreInOrder all.now }
    ensures { IfOk result (λ is. is ≡ (nat_lt at told.now.position &&
        (list_any (nat_eq told.now.position) other.now.depends &&
        spec.starts_early (spec.started_at all.now told.now.run at) (spec.stage_ended told.now)))) }
{
    if at >= told.position {
        return Ok(false);
    }
    if !is_among(other.depends.as_slice(), told.position) {
        return Ok(false);
    }
    let begun = started_at(alloc, all, near, told.run, at)?;
    Ok(starts_early(begun, stage_ended(told)))
}

/// Whether a stage's moments don't stand together, with those for which it waits and with those
/// that wait for it.
pub(crate) fn is_stage_off(
    alloc: Global,
    all: &[Seen<'_>],
    near: Near,
    stages: &[PlanStage],
    planned: &PlanStage,
    told: &KeptStage,
) -> Result<bool, Memory>
    requires order { AreInOrder all.now }
    ensures { IfOk result (λ is. is ≡ spec.is_stage_off all.now stages.now planned.now told.now) }
{
    if ends_early(told.started, stage_ended(told)) {
        return Ok(true);
    }
    if stage_starts_before(alloc, all, near, planned.depends.as_slice(), told)? {
        return Ok(true);
    }
    stage_ends_behind(alloc, all, near, stages, told)
}

/// When the job at a place was taken.
fn taken_at(
    alloc: Global,
    all: &[Seen<'_>],
    near: Near,
    run: u64,
    stage: u32,
    job: u32,
) -> Result<Option<Moment>, Memory>
    requires order { AreInOrder all.now }
    ensures { IfOk result (λ begun. begun ≡ spec.taken_at all.now run stage job) }
{
    match job_told(alloc, all, near, run, stage, job)? {
        Some(told) => Ok(job_begun(told)),
        None => Ok(None),
    }
}

/// When it ended.
fn job_ended_at(
    alloc: Global,
    all: &[Seen<'_>],
    near: Near,
    run: u64,
    stage: u32,
    job: u32,
) -> Result<Option<Moment>, Memory>
    requires order { AreInOrder all.now }
    ensures { IfOk result (λ ended. ended ≡ spec.job_ended_at all.now run stage job) }
{
    match job_told(alloc, all, near, run, stage, job)? {
        Some(told) => Ok(job_ended(told)),
        None => Ok(None),
    }
}

/// Whether a job was taken before the end of one in front for which it waits.
fn job_starts_before(
    alloc: Global,
    all: &[Seen<'_>],
    near: Near,
    depends: &[u32],
    told: &KeptJob,
) -> Result<bool, Memory>
    requires order { AreInOrder all.now }
    ensures { IfOk result (λ is. is ≡ spec.starts_before
        (spec.job_ended_at all.now told.now.run told.now.stage) depends.now told.now.position
        (spec.job_begun told.now)) }
{
    for other in depends {
        if job_is_early(alloc, all, near, *other, told)? {
            return Ok(true);
        }
    }
    Ok(false)
}

/// Whether a job was taken before the end of one that is in front.
fn job_is_early(
    alloc: Global,
    all: &[Seen<'_>],
    near: Near,
    other: u32,
    told: &KeptJob,
) -> Result<bool, Memory>
    requires order { AreInOrder all.now }
    ensures { IfOk result (λ is. is ≡ (nat_lt other told.now.position &&
        spec.starts_early (spec.job_begun told.now)
        (spec.job_ended_at all.now told.now.run told.now.stage other))) }
{
    if other >= told.position {
        return Ok(false);
    }
    let ended = job_ended_at(alloc, all, near, told.run, told.stage, other)?;
    Ok(starts_early(job_begun(told), ended))
}

/// Whether one in front that waits for a job was taken before its end.
fn job_ends_behind(
    alloc: Global,
    all: &[Seen<'_>],
    near: Near,
    jobs: &[PlanJob],
    told: &KeptJob,
) -> Result<bool, Memory>
    requires order { AreInOrder all.now }
    ensures { IfOk result (λ is. is ≡ spec.job_ends_behind all.now told.now 0 jobs.now) }
{
    let mut at: u32 = 0;
    for other in jobs {
        if other_job_is_early(alloc, all, near, at, other, told)? {
            return Ok(true);
        }
        at = next(at)?;
    }
    Ok(false)
}

/// Whether the job at a place is in front, waits for a job and was taken before its end.
fn other_job_is_early(
    alloc: Global,
    all: &[Seen<'_>],
    near: Near,
    at: u32,
    other: &PlanJob,
    told: &KeptJob,
) -> Result<bool, Memory>
    requires order { AreInOrder all.now }
    ensures { IfOk result (λ is. is ≡ (nat_lt at told.now.position &&
        (list_any (nat_eq told.now.position) other.now.depends && spec.starts_early
        (spec.taken_at all.now told.now.run told.now.stage at) (spec.job_ended told.now)))) }
{
    if at >= told.position {
        return Ok(false);
    }
    if !is_among(other.depends.as_slice(), told.position) {
        return Ok(false);
    }
    let begun = taken_at(alloc, all, near, told.run, told.stage, at)?;
    Ok(starts_early(begun, job_ended(told)))
}

/// Whether a job's moments don't stand together, with those for which it waits and with those that
/// wait for it.
pub(crate) fn is_job_off(
    alloc: Global,
    all: &[Seen<'_>],
    near: Near,
    jobs: &[PlanJob],
    planned: &PlanJob,
    told: &KeptJob,
) -> Result<bool, Memory>
    requires order { AreInOrder all.now }
    ensures { IfOk result (λ is. is ≡ spec.is_job_off all.now jobs.now planned.now told.now) }
{
    if ends_early(job_begun(told), job_ended(told)) {
        return Ok(true);
    }
    if job_starts_before(alloc, all, near, planned.depends.as_slice(), told)? {
        return Ok(true);
    }
    job_ends_behind(alloc, all, near, jobs, told)
}
