ghost use Rattle.std.specs.Prelude.{◌≡◌, ◌++◌, map, flat_map, OnOk};
ghost use Rattle.pl_plan_report.specs.Lines.{crossings_text, step_line};

use crate::bound::push_within;
use crate::words::crossing_word;
use pl_base::{Crossing, Memory, Text};
use pl_plan::PlanStep;
use pl_report::{push_place, push_word};
use std::alloc::Global;

/// Puts a word for each border behind a text.
fn push_crossings(text: &mut Text, crossings: &[&Crossing]) -> Result<(), Memory>
    ensures { OnOk result (text.new ≡
        text.old ++ crossings_text (map (λ crossing. crossing.now) crossings.now)) }
{
    for crossing in crossings {
        push_word(text, crossing_word(crossing))?;
    }
    Ok(())
}

/// Puts a step's line behind a text.
fn push_step(alloc: Global, text: &mut Text, step: &PlanStep) -> Result<(), Memory>
    ensures { OnOk result (text.new ≡ text.old ++ step_line step.now) }
{
    let origin = &step.body.origin;
    push_within(text, "step")?;
    push_word(text, step.form.as_str())?;
    text.push_str(" ")?;
    push_place(text, &origin.source)?;
    text.push_str(" via")?;
    let crossings = origin.crossings.to_vec(alloc)?;
    push_crossings(text, crossings.as_slice())?;
    text.push_str("\n")
}

/// Puts a line for each step behind a text.
pub fn push_steps(alloc: Global, text: &mut Text, steps: &[PlanStep]) -> Result<(), Memory>
    ensures { OnOk result (text.new ≡ text.old ++ flat_map step_line steps.now) }
{
    for step in steps {
        push_step(alloc, text, step)?;
    }
    Ok(())
}
