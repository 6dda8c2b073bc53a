ghost use Rattle.std.specs.Prelude.{◌≡◌, ◌++◌, map, flat_map, IfOk, OnOk};
ghost use Rattle.pl_plan_report.specs.Lines.{stage_line, stage_text, stages_text};

use crate::jobs::push_jobs;
use crate::names::{push_depends, push_uses};
use crate::words::behaviour_word;
use pl_base::{ExactCopy, List, Memory, Text};
use pl_plan::PlanStage;
use pl_report::push_word;
use std::alloc::Global;

fn names_of(alloc: Global, stages: &[PlanStage]) -> Result<List<Text>, Memory>
    ensures { IfOk result (λ names. names ≡ map (λ stage. stage.name) stages.now) }
{
    let mut names = List::new(alloc);
    for stage in stages {
        names.push(stage.name.copy(alloc)?)?;
    }
    Ok(names)
}

/// Puts a stage's line behind a text, what it waits for by these names.
fn push_stage_line(text: &mut Text, names: &List<Text>, stage: &PlanStage) -> Result<(), Memory>
    ensures { OnOk result (text.new ≡ text.old ++ stage_line names.now stage.now) }
{
    text.push_str("stage")?;
    push_word(text, stage.name.as_str())?;
    push_depends(text, names, stage.depends.as_slice())?;
    text.push_str(" lock")?;
    push_word(text, behaviour_word(stage.behaviour))?;
    push_uses(text, stage.uses.as_slice())?;
    text.push_str("\n")
}

fn push_stage(
    alloc: Global,
    text: &mut Text,
    names: &List<Text>,
    stage: &PlanStage,
) -> Result<(), Memory>
    ensures { OnOk result (text.new ≡ text.old ++ stage_text names.now stage.now) }
{
    push_stage_line(text, names, stage)?;
    push_jobs(alloc, text, stage.jobs.as_slice())
}

fn push_each_stage(
    alloc: Global,
    text: &mut Text,
    names: &List<Text>,
    stages: &[PlanStage],
) -> Result<(), Memory>
    ensures { OnOk result (text.new ≡ text.old ++ flat_map (stage_text names.now) stages.now) }
{
    for stage in stages {
        push_stage(alloc, text, names, stage)?;
    }
    Ok(())
}

/// Puts stages behind a text, each with its jobs.
pub fn push_stages(alloc: Global, text: &mut Text, stages: &[PlanStage]) -> Result<(), Memory>
    ensures { OnOk result (text.new ≡ text.old ++ stages_text stages.now) }
{
    let names = names_of(alloc, stages)?;
    push_each_stage(alloc, text, &names, stages)
}
