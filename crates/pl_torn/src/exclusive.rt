//! Stages that run on one exclusive resource.

ghost use Rattle.std.specs.Prelude.{◌≡◌, ◌&&◌, IfOk};
ghost use Rattle.pl_torn.specs.Exclusive as spec;
ghost use Rattle.pl_torn.specs.Seen.{AreInOrder};

use crate::looking::{planned_stage, resource_told};
use crate::near::Near;
use crate::seen::{Seen, stage_of};
use pl_base::{Memory, ResourceKey};
use pl_keeper::KeptStage;
use pl_plan::PlanStage;
use std::alloc::Global;

/// Whether a stage was started and hasn't ended.
fn is_running(told: &KeptStage) -> bool
    ensures { result ≡ spec.is_running told.now }
{
    told.started.is_some() && told.ended.is_none()
}

/// Whether one stage at a time uses a resource.
fn is_exclusive(alloc: Global, all: &[Seen<'_>], key: &ResourceKey) -> Result<bool, Memory>
    requires order { AreInOrder all.now }
    ensures { IfOk result (λ is. is ≡ spec.is_exclusive all.now key.now) }
{
    match resource_told(alloc, all, key)? {
        Some(told) => Ok(told.exclusive),
        None => Ok(false),
    }
}

/// Whether a resource is among those that are used.
fn is_used(uses: &[ResourceKey], key: &ResourceKey) -> bool
    ensures { result ≡ spec.is_used uses.now key.now }
{
    uses.iter().any(|other| other.cmp(key).is_eq())
}

/// Whether both use a resource that is exclusive.
fn share(
    alloc: Global,
    all: &[Seen<'_>],
    uses: &[ResourceKey],
    others: &[ResourceKey],
) -> Result<bool, Memory>
    requires order { AreInOrder all.now }
    ensures { IfOk result (λ is. is ≡ spec.share all.now uses.now others.now) }
{
    for key in uses {
        if is_shared(alloc, all, others, key)? {
            return Ok(true);
        }
    }
    Ok(false)
}

/// Whether a resource is among those that are used, and one stage at a time uses it.
fn is_shared(
    alloc: Global,
    all: &[Seen<'_>],
    uses: &[ResourceKey],
    key: &ResourceKey,
) -> Result<bool, Memory>
    requires order { AreInOrder all.now }
    ensures { IfOk result
        (λ is. is ≡ (spec.is_used uses.now key.now && spec.is_exclusive all.now key.now)) }
{
    if !is_used(uses, key) {
        return Ok(false);
    }
    is_exclusive(alloc, all, key)
}

/// Whether it is the row of a stage that runs and shares an exclusive resource with one that is
/// planned.
fn runs_on(
    alloc: Global,
    all: &[Seen<'_>],
    planned: &PlanStage,
    one: &Seen<'_>,
) -> Result<bool, Memory>
    requires order { AreInOrder all.now }
    ensures { IfOk result (λ is. is ≡ spec.runs_on all.now planned.now.uses one.now) }
{
    match stage_of(one) {
        Some(told) => is_sharing(alloc, all, planned, told),
        None => Ok(false),
    }
}

/// Whether a stage runs and shares an exclusive resource with one that is planned.
fn is_sharing(
    alloc: Global,
    all: &[Seen<'_>],
    planned: &PlanStage,
    told: &KeptStage,
) -> Result<bool, Memory>
    requires order { AreInOrder all.now }
    ensures { IfOk result (λ is. is ≡ spec.is_sharing all.now planned.now.uses told.now) }
{
    if !is_running(told) {
        return Ok(false);
    }
    match planned_stage(alloc, all, Near::first(), told.run, told.position)? {
        Some(other) => share(alloc, all, planned.uses.as_slice(), other.uses.as_slice()),
        None => Ok(false),
    }
}

/// Whether a stage runs, and one in front does on a resource that both use alone.
pub(crate) fn is_held(
    alloc: Global,
    all: &[Seen<'_>],
    before: &[Seen<'_>],
    planned: &PlanStage,
    told: &KeptStage,
) -> Result<bool, Memory>
    requires order { AreInOrder all.now }
    ensures { IfOk result (λ is. is ≡ spec.is_held all.now before.now planned.now told.now) }
{
    if !is_running(told) {
        return Ok(false);
    }
    for one in before {
        if runs_on(alloc, all, planned, one)? {
            return Ok(true);
        }
    }
    Ok(false)
}
