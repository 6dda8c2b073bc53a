ghost use Rattle.std.specs.Prelude.{flat_map};
ghost use Rattle.pl_depends.specs.declared.fault.PlanCode.TheVariants.{TooManyJobs, TooManyStages};
ghost use Rattle.pl_depends.specs.declared.fault.PlanCode.TheVariants.{TooManySteps};
ghost use Rattle.pl_schema_parts.specs.Gives.{Gives};
ghost use Rattle.pl_plan.specs.Limits as spec;
ghost use Rattle.pl_plan.specs.Limits.{at_most, left_over, leg_seats, seats_in, step_seats};

use pl_depends::{PlanCode, PlanFault, leg_count};
use pl_schema::{JobSpec, StageSpec};
use pl_schema_parts::refusal;
use std::alloc::Global;

/// How many stages a pipeline may have.
const MOST_STAGES: usize = 64;

/// How many jobs it may have, each leg being one.
const MOST_JOBS: usize = 256;

/// How many steps it may have, those of a job once for all its legs.
const MOST_STEPS: usize = 2_000;

fn judge_stages(alloc: Global, stages: &[StageSpec]) -> Result<(), PlanFault>
    ensures { Gives result (at_most TooManyStages 64 (spec.stage_seats stages.now)) }
{
    match stages.get(MOST_STAGES) {
        Some(stage) => Err(refusal(alloc, PlanCode::TooManyStages, &stage.place)),
        None => Ok(()),
    }
}

/// How many jobs may follow those of a job, of so many.
fn behind_legs(alloc: Global, left: usize, job: &JobSpec) -> Result<usize, PlanFault>
    ensures { Gives result (left_over TooManyJobs left (leg_seats job.now)) }
{
    let count = leg_count(&job.legs);
    if count <= left {
        Ok(left - count)
    } else {
        Err(refusal(alloc, PlanCode::TooManyJobs, &job.place))
    }
}

fn behind_jobs(alloc: Global, left: usize, jobs: &[JobSpec]) -> Result<usize, PlanFault>
    ensures { Gives result (left_over TooManyJobs left (flat_map leg_seats jobs.now)) }
{
    let mut left = left;
    for job in jobs {
        left = behind_legs(alloc, left, job)?;
    }
    Ok(left)
}

fn judge_jobs(alloc: Global, stages: &[StageSpec]) -> Result<(), PlanFault>
    ensures { Gives result (at_most TooManyJobs 256 (seats_in leg_seats stages.now)) }
{
    let mut left = MOST_JOBS;
    for stage in stages {
        left = behind_jobs(alloc, left, stage.jobs.as_slice())?;
    }
    Ok(())
}

/// How many steps may follow those of a job, of so many.
fn behind_steps(alloc: Global, left: usize, job: &JobSpec) -> Result<usize, PlanFault>
    ensures { Gives result (left_over TooManySteps left (step_seats job.now)) }
{
    match job.steps.get(left) {
        Some(step) => Err(refusal(alloc, PlanCode::TooManySteps, &step.place)),
        None => Ok(left.saturating_sub(job.steps.len())),
    }
}

fn behind_all_steps(alloc: Global, left: usize, jobs: &[JobSpec]) -> Result<usize, PlanFault>
    ensures { Gives result (left_over TooManySteps left (flat_map step_seats jobs.now)) }
{
    let mut left = left;
    for job in jobs {
        left = behind_steps(alloc, left, job)?;
    }
    Ok(left)
}

fn judge_steps(alloc: Global, stages: &[StageSpec]) -> Result<(), PlanFault>
    ensures { Gives result (at_most TooManySteps 2000 (seats_in step_seats stages.now)) }
{
    let mut left = MOST_STEPS;
    for stage in stages {
        left = behind_all_steps(alloc, left, stage.jobs.as_slice())?;
    }
    Ok(())
}

/// Refuses the first stage, job or step past its limit, in this order.
#[tactic(auto, unfolding(crate::specs::Limits::limits_kept))]
pub fn limits_kept(alloc: Global, stages: &[StageSpec]) -> Result<(), PlanFault>
    ensures { Gives result (spec.limits_kept stages.now) }
{
    judge_stages(alloc, stages)?;
    judge_jobs(alloc, stages)?;
    judge_steps(alloc, stages)
}
