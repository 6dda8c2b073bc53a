ghost use Rattle.std.specs.Prelude.{◌≡◌, IfOk};
ghost use Rattle.pl_depends.specs.Places.{under};
ghost use Rattle.pl_plan.specs.Legs.{AreLegsIn, AreLegsOf};
ghost use Rattle.pl_plan.specs.Plans as spec;

use crate::jobs::plan_jobs;
use crate::legs::KeptLegs;
use crate::plan::PlanStage;
use crate::steps::both;
use pl_base::{Behaviour, ExactCopy, List, Memory};
use pl_depends::{Places, stage_places, stage_waits};
use pl_schema::{Pipeline, StageSpec};
use pl_uses::uses_of;
use std::alloc::Global;

/// The behaviour of a stage's locks: its own, else the pipeline's, else that the latest run alone
/// goes on.
fn behaviour_of(pipeline: &Pipeline, stage: &StageSpec) -> Behaviour
    ensures { result ≡ spec.behaviour_of pipeline.now stage.now }
{
    match (stage.behaviour, pipeline.behaviour) {
        (Some(behaviour), _) => behaviour,
        (None, Some(behaviour)) => behaviour,
        (None, None) => Behaviour::RunLatest,
    }
}

fn plan_stage(
    alloc: Global,
    pipeline: &Pipeline,
    places: &Places,
    at: usize,
    stage: &StageSpec,
    legs: &[KeptLegs],
) -> Result<PlanStage, Memory>
    requires { AreLegsOf stage.now.jobs legs.now }
    ensures { IfOk result
        (λ made. made ≡ spec.plan_stage pipeline.now (under places.now) at stage.now) }
{
    let name = stage.name.copy(alloc)?;
    let depends = stage_waits(alloc, places, at, &stage.depends)?;
    let condition = stage.condition.copy(alloc)?;
    let variables = both(alloc, &pipeline.variables, &stage.variables)?;
    let groups = both(alloc, &pipeline.groups, &stage.groups)?;
    let uses = uses_of(alloc, pipeline, stage)?;
    let jobs = plan_jobs(alloc, pipeline, stage, legs)?;
    Ok(PlanStage {
        name,
        depends,
        condition,
        variables,
        groups,
        uses,
        behaviour: behaviour_of(pipeline, stage),
        jobs,
    })
}

fn plan_all(
    alloc: Global,
    pipeline: &Pipeline,
    places: &Places,
    legs: &[List<KeptLegs>],
) -> Result<List<PlanStage>, Memory>
    requires { AreLegsIn pipeline.now.stages legs.now }
    ensures { IfOk result (λ stages. stages ≡
        spec.plan_stages pipeline.now (under places.now) 0 pipeline.now.stages) }
{
    let mut stages = List::new(alloc);
    for (at, stage) in pipeline.stages.as_slice().iter().enumerate() {
        stages.push(plan_stage(alloc, pipeline, places, at, stage, legs[at].as_slice())?)?;
    }
    Ok(stages)
}

/// The stages of a pipeline, of these legs.
pub fn plan_stages(
    alloc: Global,
    pipeline: &Pipeline,
    legs: &[List<KeptLegs>],
) -> Result<List<PlanStage>, Memory>
    requires { AreLegsIn pipeline.now.stages legs.now }
    ensures { IfOk result (λ stages. stages ≡ spec.stages_of pipeline.now) }
{
    let places = stage_places(alloc, pipeline.stages.as_slice())?;
    plan_all(alloc, pipeline, &places, legs)
}
