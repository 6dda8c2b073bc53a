//! Where the steps of a stage come from.

ghost use Rattle.std.specs.Prelude.{◌≡◌, ◌+◌, ◌++◌, IfOk, OnOk};
ghost use Rattle.pl_base.specs.declared.value.Value.{out-Value};
ghost use Rattle.pl_views.specs.CheckViews as spec;

use pl_base::{ExactCopy, List, MarkedNode, Memory, Origin, Value};
use pl_checks::StepMark;
use pl_plan::{PlanJob, PlanStage, PlanStep, label_of};
use std::alloc::Global;

/// Where the first key of a step's mapping comes from.
fn key_origin(body: &MarkedNode) -> &Origin
    ensures { result.now ≡ spec.key_origin body.now.origin (out-Value body.now.value) }
{
    match &body.value {
        Value::Object(pairs) => match pairs.as_slice() {
            [first, ..] => &first.key_origin,
            [] => &body.origin,
        },
        _ => &body.origin,
    }
}

/// A step of a job, by its number there.
fn step_mark(alloc: Global, job: &PlanJob, number: u32, step: &PlanStep) -> Result<StepMark, Memory>
    ensures { IfOk result (λ mark. mark ≡ spec.step_mark job.now (number, step.now)) }
{
    let label = label_of(alloc, job)?;
    let mapping = step.body.origin.copy(alloc)?;
    let key = key_origin(&step.body).copy(alloc)?;
    Ok(StepMark {
        job: label,
        number,
        mapping,
        key,
    })
}

/// The number behind a number. One that doesn't fit is want of memory.
fn next(number: u32) -> Result<u32, Memory>
    ensures { IfOk result (λ next. next ≡ number + 1) }
{
    match number.checked_add(1) {
        Some(next) => Ok(next),
        None => Err(Memory),
    }
}

/// Puts the steps of a job behind the others.
fn push_marks(alloc: Global, marks: &mut List<StepMark>, job: &PlanJob) -> Result<(), Memory>
    ensures { OnOk result (marks.new ≡ marks.old ++ spec.job_marks job.now) }
{
    let mut number = 0;
    for step in job.steps.as_slice() {
        number = next(number)?;
        marks.push(step_mark(alloc, job, number, step)?)?;
    }
    Ok(())
}

/// The steps of a stage, each leg's among them.
pub(crate) fn step_marks(alloc: Global, planned: &PlanStage) -> Result<List<StepMark>, Memory>
    ensures { IfOk result (λ marks. marks ≡ spec.step_marks planned.now) }
{
    let mut marks = List::new(alloc);
    for job in planned.jobs.as_slice() {
        push_marks(alloc, &mut marks, job)?;
    }
    Ok(marks)
}
