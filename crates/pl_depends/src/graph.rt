ghost use Rattle.std.specs.Prelude.{◌≡◌, map, IfOk};
ghost use Rattle.pl_graph.specs.Waits.{edges_by};
ghost use Rattle.pl_depends.specs.Graph as spec;
ghost use Rattle.pl_depends.specs.Places.{under};

use crate::places::{Places, job_places, one_place, place_of, push_under, stage_places};
use pl_base::{ExactCopy, List, Memory, Place, Text};
use pl_graph::push_edges;
use pl_schema::{DependSpec, JobSpec, StageSpec};
use std::alloc::Global;

/// A stage or a job, and the places of those that it waits for.
#[derive(Drop)]
pub struct Waiting {
    pub name: Text,
    pub place: Place,
    pub depends: List<u32>,
}

/// The places of those that are waited for, as they are written.
fn places_named(alloc: Global, places: &Places, depends: &[DependSpec]) -> Result<List<u32>, Memory>
    ensures { IfOk result (λ found. found ≡ spec.places_named (under places.now) depends.now) }
{
    let mut found = List::new(alloc);
    for depend in depends {
        push_under(alloc, places, &depend.name, &mut found)?;
    }
    Ok(found)
}

fn the_one_before(alloc: Global, at: usize) -> Result<List<u32>, Memory>
    ensures { IfOk result (λ before. before ≡ spec.the_one_before at) }
{
    if at == 0 {
        return Ok(List::new(alloc));
    }
    one_place(alloc, at - 1)
}

/// The places of the stages that the stage at a place waits for.
pub fn stage_waits(
    alloc: Global,
    places: &Places,
    at: usize,
    depends: &Option<List<DependSpec>>,
) -> Result<List<u32>, Memory>
    ensures { IfOk result
        (λ found. found ≡ spec.stage_waits (under places.now) at depends.now) }
{
    match depends {
        Some(names) => places_named(alloc, places, names.as_slice()),
        None => the_one_before(alloc, at),
    }
}

/// The places of the jobs that a job waits for.
pub fn job_waits(
    alloc: Global,
    places: &Places,
    depends: &Option<List<DependSpec>>,
) -> Result<List<u32>, Memory>
    ensures { IfOk result (λ found. found ≡ spec.job_waits (under places.now) depends.now) }
{
    match depends {
        Some(depends) => places_named(alloc, places, depends.as_slice()),
        None => Ok(List::new(alloc)),
    }
}

fn waiting_stage(
    alloc: Global,
    places: &Places,
    at: usize,
    stage: &StageSpec,
) -> Result<Waiting, Memory>
    ensures { IfOk result
        (λ waiting. waiting ≡ spec.waiting_stage (under places.now) at stage.now) }
{
    let name = stage.name.copy(alloc)?;
    let place = stage.place.copy(alloc)?;
    let depends = stage_waits(alloc, places, at, &stage.depends)?;
    Ok(Waiting {
        name,
        place,
        depends,
    })
}

fn waiting_stages(
    alloc: Global,
    places: &Places,
    stages: &[StageSpec],
) -> Result<List<Waiting>, Memory>
    ensures { IfOk result
        (λ graph. graph ≡ spec.waiting_stages (under places.now) 0 stages.now) }
{
    let mut graph = List::new(alloc);
    for (at, stage) in stages.iter().enumerate() {
        graph.push(waiting_stage(alloc, places, at, stage)?)?;
    }
    Ok(graph)
}

/// The stages with what they wait for.
pub fn stage_graph(alloc: Global, stages: &[StageSpec]) -> Result<List<Waiting>, Memory>
    ensures { IfOk result (λ graph. graph ≡ spec.stage_graph stages.now) }
{
    let places = stage_places(alloc, stages)?;
    waiting_stages(alloc, &places, stages)
}

fn waiting_job(alloc: Global, places: &Places, job: &JobSpec) -> Result<Waiting, Memory>
    ensures { IfOk result (λ waiting. waiting ≡ spec.waiting_job (under places.now) job.now) }
{
    let name = job.name.copy(alloc)?;
    let place = job.place.copy(alloc)?;
    let depends = job_waits(alloc, places, &job.depends)?;
    Ok(Waiting {
        name,
        place,
        depends,
    })
}

fn waiting_jobs(alloc: Global, places: &Places, jobs: &[JobSpec]) -> Result<List<Waiting>, Memory>
    ensures { IfOk result (λ graph. graph ≡ map (spec.waiting_job (under places.now)) jobs.now) }
{
    let mut graph = List::new(alloc);
    for job in jobs {
        graph.push(waiting_job(alloc, places, job)?)?;
    }
    Ok(graph)
}

/// The jobs of a stage with what they wait for.
pub fn job_graph(alloc: Global, jobs: &[JobSpec]) -> Result<List<Waiting>, Memory>
    ensures { IfOk result (λ graph. graph ≡ spec.job_graph jobs.now) }
{
    let places = job_places(alloc, jobs)?;
    waiting_jobs(alloc, &places, jobs)
}

/// Who waits, and for whom.
pub fn edges_of(alloc: Global, graph: &[Waiting]) -> Result<List<(u32, u32)>, Memory>
    ensures { IfOk result (λ edges. edges ≡ edges_by 0 (spec.waits_of graph.now)) }
{
    let mut edges = List::new(alloc);
    for (at, waiting) in graph.iter().enumerate() {
        push_edges(&mut edges, place_of(at)?, waiting.depends.as_slice())?;
    }
    Ok(edges)
}
