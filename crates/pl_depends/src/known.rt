ghost use Rattle.pl_schema_parts.specs.Gives.{Gives};
ghost use Rattle.pl_depends.specs.Gives.{each_passes};
ghost use Rattle.pl_depends.specs.Known as spec;
ghost use Rattle.pl_depends.specs.Places.{under};

use crate::fault::{PlanCode, PlanFault};
use crate::places::{Places, is_known, job_places, stage_places};
use pl_base::List;
use pl_schema::{DependSpec, JobSpec, StageSpec};
use pl_schema_parts::refusal;
use std::alloc::Global;

fn each_known(alloc: Global, places: &Places, depends: &[DependSpec]) -> Result<(), PlanFault>
    ensures { Gives result (each_passes (spec.known (under places.now)) depends.now) }
{
    for depend in depends {
        if !is_known(alloc, places, &depend.name)? {
            return Err(refusal(alloc, PlanCode::UnknownDependency, &depend.place));
        }
    }
    Ok(())
}

fn all_known(
    alloc: Global,
    places: &Places,
    depends: &Option<List<DependSpec>>,
) -> Result<(), PlanFault>
    ensures { Gives result (spec.all_known (under places.now) depends.now) }
{
    match depends {
        Some(depends) => each_known(alloc, places, depends.as_slice()),
        None => Ok(()),
    }
}

fn jobs_known_in(alloc: Global, places: &Places, jobs: &[JobSpec]) -> Result<(), PlanFault>
    ensures { Gives result
        (each_passes (λ job. spec.all_known (under places.now) job.depends) jobs.now) }
{
    for job in jobs {
        all_known(alloc, places, &job.depends)?;
    }
    Ok(())
}

fn jobs_known(alloc: Global, jobs: &[JobSpec]) -> Result<(), PlanFault>
    ensures { Gives result (spec.jobs_known jobs.now) }
{
    let places = job_places(alloc, jobs)?;
    jobs_known_in(alloc, &places, jobs)
}

fn stage_known(alloc: Global, places: &Places, stage: &StageSpec) -> Result<(), PlanFault>
    ensures { Gives result (spec.stage_known (under places.now) stage.now) }
{
    all_known(alloc, places, &stage.depends)?;
    jobs_known(alloc, stage.jobs.as_slice())
}

fn stages_known(alloc: Global, places: &Places, stages: &[StageSpec]) -> Result<(), PlanFault>
    ensures { Gives result (each_passes (spec.stage_known (under places.now)) stages.now) }
{
    for stage in stages {
        stage_known(alloc, places, stage)?;
    }
    Ok(())
}

/// Refuses the first name that is waited for and that no one has: stage by stage, those of the
/// stage, then those of its jobs.
#[tactic(auto, unfolding(crate::specs::Known::names_known))]
pub fn names_known(alloc: Global, stages: &[StageSpec]) -> Result<(), PlanFault>
    ensures { Gives result (spec.names_known stages.now) }
{
    let places = stage_places(alloc, stages)?;
    stages_known(alloc, &places, stages)
}
