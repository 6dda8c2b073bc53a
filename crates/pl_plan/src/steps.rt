ghost use Rattle.std.specs.Prelude.{◌≡◌, ◌++◌, map, IfOk, OnOk};
ghost use Rattle.pl_plan.specs.Plans.{plan_step};

use crate::plan::PlanStep;
use pl_base::{ExactCopy, List, Memory};
use pl_schema::StepSpec;
use std::alloc::Global;

fn plan_step(alloc: Global, step: &StepSpec) -> Result<PlanStep, Memory>
    ensures { IfOk result (λ made. made ≡ plan_step step.now) }
{
    let form = step.form.copy(alloc)?;
    let body = step.body.copy(alloc)?;
    Ok(PlanStep { form, body })
}

/// The steps of a job.
pub fn plan_steps(alloc: Global, steps: &[StepSpec]) -> Result<List<PlanStep>, Memory>
    ensures { IfOk result (λ made. made ≡ map plan_step steps.now) }
{
    let mut made = List::new(alloc);
    for step in steps {
        made.push(plan_step(alloc, step)?)?;
    }
    Ok(made)
}

/// Puts the same items once more behind those that are there.
fn push_copies<T: ExactCopy>(alloc: Global, list: &mut List<T>, items: &[T]) -> Result<(), Memory>
    ensures { OnOk result (list.new ≡ list.old ++ items.now) }
{
    for item in items {
        list.push(item.copy(alloc)?)?;
    }
    Ok(())
}

/// The items of one list and then those of another one, once more.
pub fn both<T: ExactCopy>(alloc: Global, first: &List<T>, then: &List<T>) -> Result<List<T>, Memory>
    ensures { IfOk result (λ all. all ≡ first.now ++ then.now) }
{
    let mut all = first.copy(alloc)?;
    push_copies(alloc, &mut all, then.as_slice())?;
    Ok(all)
}
