ghost use Rattle.std.specs.Prelude.{◌≡◌, ◌++◌, map, flat_map, IfOk, OnOk};
ghost use Rattle.pl_depends.specs.Graph.{job_waits};
ghost use Rattle.pl_depends.specs.Places.{leg_entries, places_under, under};
ghost use Rattle.pl_plan.specs.Plans as spec;
ghost use Rattle.pl_plan.specs.Plans.{plan_step};
ghost use Rattle.pl_plan.specs.Legs.{AreLegsOf, all_legs, legs_of};

use crate::legs::{KeptLegs, Leg, only_leg, slices};
use crate::plan::{PlanJob, PlanStep};
use crate::steps::{both, plan_steps};
use pl_base::{ExactCopy, List, Memory, Shared};
use pl_depends::{Places, job_waits, leg_places};
use pl_schema::{JobSpec, Pipeline, PoolSpec, StageSpec};
use pl_uses::{demands_of, pool_name, pool_of};
use std::alloc::Global;

/// For how many minutes a job goes on that doesn't say it.
const USUAL_MINUTES: u32 = 60;

/// How many legs of a job may run at once that doesn't say it.
const MOST_AT_ONCE: u32 = 256;

/// What the legs of a job share.
#[derive(Drop)]
struct Common {
    depends: Shared<List<u32>>,
    steps: Shared<List<PlanStep>>,
}

fn common_of(alloc: Global, places: &Places, job: &JobSpec) -> Result<Common, Memory>
    ensures depends { IfOk result
        (λ common. common.depends ≡ job_waits (under places.now) job.now.depends) }
    ensures steps { IfOk result (λ common. common.steps ≡ map plan_step job.now.steps) }
{
    let depends = Shared::new(alloc, job_waits(alloc, places, &job.depends)?)?;
    let steps = Shared::new(alloc, plan_steps(alloc, job.steps.as_slice())?)?;
    Ok(Common { depends, steps })
}

fn plan_leg(
    alloc: Global,
    pool: &Option<PoolSpec>,
    common: &Common,
    job: &JobSpec,
    leg: &Leg,
) -> Result<PlanJob, Memory>
    ensures { IfOk result (λ made. made ≡
        spec.plan_leg pool.now common.now.depends common.now.steps job.now leg.now) }
{
    let name = job.name.copy(alloc)?;
    let own = leg.name.copy(alloc)?;
    let depends = common.depends.copy(alloc)?;
    let condition = job.condition.copy(alloc)?;
    let variables = both(alloc, &job.variables, &leg.variables)?;
    let groups = job.groups.copy(alloc)?;
    let demands = demands_of(alloc, pool)?;
    let pool = pool_name(alloc, pool)?;
    let steps = common.steps.copy(alloc)?;
    Ok(PlanJob {
        name,
        leg: own,
        deployment: job.deployment,
        depends,
        condition,
        variables,
        groups,
        pool,
        demands,
        max_parallel: job.max_parallel.unwrap_or(MOST_AT_ONCE),
        timeout: job.timeout.unwrap_or(USUAL_MINUTES),
        go_on: job.go_on,
        steps,
    })
}

fn push_legs(
    alloc: Global,
    jobs: &mut List<PlanJob>,
    pool: &Option<PoolSpec>,
    common: &Common,
    job: &JobSpec,
    legs: &[Leg],
) -> Result<(), Memory>
    ensures { OnOk result (jobs.new ≡ jobs.old ++
        map (spec.plan_leg pool.now common.now.depends common.now.steps job.now) legs.now) }
{
    for leg in legs {
        jobs.push(plan_leg(alloc, pool, common, job, leg)?)?;
    }
    Ok(())
}

/// Puts a job for each leg.
fn push_kept(
    alloc: Global,
    jobs: &mut List<PlanJob>,
    pool: &Option<PoolSpec>,
    common: &Common,
    job: &JobSpec,
    legs: &KeptLegs,
) -> Result<(), Memory>
    ensures { OnOk result (jobs.new ≡ jobs.old ++ map
        (spec.plan_leg pool.now common.now.depends common.now.steps job.now)
        (all_legs legs.now)) }
{
    match legs {
        KeptLegs::One => {
            let only = only_leg(alloc)?;
            push_legs(alloc, jobs, pool, common, job, only.as_slice())
        }
        KeptLegs::Slices(count) => {
            let slices = slices(alloc, *count)?;
            push_legs(alloc, jobs, pool, common, job, slices.as_slice())
        }
        KeptLegs::Matrix(legs) => push_legs(alloc, jobs, pool, common, job, legs.as_slice()),
    }
}

fn push_job(
    alloc: Global,
    jobs: &mut List<PlanJob>,
    pipeline: &Pipeline,
    stage: &StageSpec,
    places: &Places,
    job: &JobSpec,
    legs: &KeptLegs,
) -> Result<(), Memory>
    requires { all_legs legs.now ≡ legs_of job.now.legs }
    ensures { OnOk result (jobs.new ≡
        jobs.old ++ spec.plan_job pipeline.now stage.now (under places.now) job.now) }
{
    let common = common_of(alloc, places, job)?;
    let pool = pool_of(pipeline, stage, job);
    push_kept(alloc, jobs, pool, &common, job, legs)
}

fn push_jobs(
    alloc: Global,
    jobs: &mut List<PlanJob>,
    pipeline: &Pipeline,
    stage: &StageSpec,
    places: &Places,
    legs: &[KeptLegs],
) -> Result<(), Memory>
    requires { AreLegsOf stage.now.jobs legs.now }
    ensures { OnOk result (jobs.new ≡ jobs.old ++
        flat_map (spec.plan_job pipeline.now stage.now (under places.now)) stage.now.jobs) }
{
    for (at, job) in stage.jobs.as_slice().iter().enumerate() {
        push_job(alloc, jobs, pipeline, stage, places, job, &legs[at])?;
    }
    Ok(())
}

/// The jobs of a stage, each leg being one, of these legs.
pub fn plan_jobs(
    alloc: Global,
    pipeline: &Pipeline,
    stage: &StageSpec,
    legs: &[KeptLegs],
) -> Result<List<PlanJob>, Memory>
    requires { AreLegsOf stage.now.jobs legs.now }
    ensures { IfOk result (λ jobs. jobs ≡ spec.plan_jobs pipeline.now stage.now) }
{
    let places = leg_places(alloc, stage.jobs.as_slice())?;
    let mut jobs = List::new(alloc);
    push_jobs(alloc, &mut jobs, pipeline, stage, &places, legs)?;
    Ok(jobs)
}
