ghost use Rattle.std.specs.Prelude.{◌≡◌, IfOk};
ghost use Rattle.pl_reading.specs.Answers as answers;
ghost use Rattle.pl_schema_parts.specs.Gives.{told};
ghost use Rattle.pl_depends.specs.Gives.{Means};
ghost use Rattle.pl_plan.specs.Laws.{IsAsWritten, IsSound};
ghost use Rattle.pl_plan.specs.Legs.{AreLegsIn};
ghost use Rattle.pl_plan.specs.Planned.{IsPlanned};
ghost use Rattle.pl_plan.specs.Plans as spec;
ghost use Rattle.pl_plan.specs.Plans.{IsPlanOf};

use crate::legs::{KeptLegs, legs_of_stages};
use crate::limits::limits_kept;
use crate::plan::Plan;
use crate::stages::plan_stages;
use pl_base::{ExactCopy, List, Memory};
use pl_depends::{PlanFault, judge_cycles, names_known};
use pl_schema::{Pipeline, StageSpec};
use std::alloc::Global;

/// The legs of all jobs. Refuses what is judged before the cycles.
#[tactic(auto, unfolding(crate::specs::Plans::judged))]
fn judge(alloc: Global, stages: &[StageSpec]) -> Result<List<List<KeptLegs>>, PlanFault>
    ensures judged { answers.Gives told (λ kept. tt) result (spec.judged stages.now) }
    ensures kept { IfOk result (AreLegsIn stages.now) }
{
    let legs = legs_of_stages(alloc, stages)?;
    limits_kept(alloc, stages)?;
    names_known(alloc, stages)?;
    Ok(legs)
}

#[tactic(auto, unfolding(crate::specs::Plans::plan_from))]
fn plan_from(alloc: Global, pipeline: &Pipeline, legs: &[List<KeptLegs>]) -> Result<Plan, Memory>
    requires { AreLegsIn pipeline.now.stages legs.now }
    ensures { IfOk result (λ plan. plan ≡ spec.plan_from pipeline.now) }
{
    let stages = plan_stages(alloc, pipeline, legs)?;
    let root = pipeline.root.copy(alloc)?;
    let extends = pipeline.extends.copy(alloc)?;
    let linked = pipeline.linked.copy(alloc)?;
    Ok(Plan {
        root,
        extends,
        linked,
        stages,
    })
}

/// The plan of a pipeline (Microsoft Learn, Azure Pipelines, "YAML schema reference", "Stages",
/// "Jobs", "Define variables", "Demands").
///
/// Stages and jobs stand in the written order. A stage without `dependsOn` waits for the stage
/// before it, a job without it for none; names are found without regard to the case of ASCII's
/// letters, and doubles are kept. A job with a matrix stands there once for each leg, in the
/// matrix's order, with the leg's variables behind its own; one with `parallel: n` as the legs
/// `job_1` to `job_n`, which are told their number and n in `System.JobPositionInPhase` and
/// `System.TotalJobsInPhase`. Who waits for a job waits for all its legs. A job's pool is its own,
/// else its stage's, else the pipeline's, else `Default`; an image asks for an agent with that
/// `vmImage` where no pool is named. A stage's locks behave as it says, else as the pipeline says,
/// else so that the latest run alone goes on. A stage uses the environments of its deployments, the
/// connections of its tasks, the groups of the pipeline, its own and its jobs', its jobs' pools,
/// and the repositories that it checks out other than its own.
///
/// A refusal is the first of these, each at the first place that it has:
///
/// - L5, at the name of a leg that isn't a letter with at most 99 letters, digits and `_` behind
///   it, that another leg before it has in any case, or that isn't a mapping of scalars; or at a
///   matrix that has no leg;
/// - L3, at the 65th stage;
/// - L4, at the job with whose legs there are more than 256 jobs;
/// - L6, at the 2,001st step, those of a job counted once for all its legs;
/// - L1, at a name that is waited for and that no stage, or no job of the stage, has: stage by
///   stage, those of the stage, then those of its jobs;
/// - L2, at the first stage of those that wait for one another in a cycle, or at the first job
///   of those of one stage that do, where that stage comes before; with their names, each of which
///   waits for the next one and the last one for the first.
///
/// What a stage of the plan waits for are places of the plan's list, and what a job waits for are
/// places of its stage's list, and neither has a cycle. What a stage uses ascends by kind and
/// name, each once. Memory may come at any time.
pub fn plan_of(alloc: Global, pipeline: &Pipeline) -> Result<Plan, PlanFault>
    ensures is { Means result (IsPlanOf pipeline.now) }
    ensures sound { IfOk result (λ plan. IsSound plan) }
    ensures written { IfOk result (λ plan. IsAsWritten pipeline.now plan) }
    ensures planned { IfOk result (λ plan. IsPlanned pipeline.now plan) }
{
    let legs = judge(alloc, pipeline.stages.as_slice())?;
    judge_cycles(alloc, pipeline.stages.as_slice())?;
    Ok(plan_from(alloc, pipeline, legs.as_slice())?)
}
