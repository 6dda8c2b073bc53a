ghost use Rattle.std.specs.Prelude.{◌≡◌, ◌<◌, ◌^◌, ◌==◌, IfOk, length, filter};
ghost use Rattle.std.specs.List.{list_any, range_with_len};
ghost use Rattle.pl_plan.specs.Laws.{IsOrderly, waits_of_jobs, waits_of_stages};
ghost use Rattle.pl_results.specs.Transitive as spec;

use crate::edges::{job_edges, stage_edges};
use pl_base::{List, Memory};
use pl_graph::ancestors;
use pl_plan::{PlanJob, PlanStage};
use std::alloc::Global;

/// The places of all stages for which the one at a place waits, directly or through others.
pub fn stages_before(alloc: Global, stages: &[PlanStage], at: u32) -> Result<List<u32>, Memory>
    requires small { length stages.now < 2 ^ 32 }
    requires orderly { IsOrderly (waits_of_stages stages.now) }
    requires within { at < length stages.now }
    ensures { IfOk result (λ places. places ≡ spec.transitive (waits_of_stages stages.now) at) }
{
    let edges = stage_edges(alloc, stages)?;
    ancestors(alloc, stages.len() as u32, &edges, at)
}

/// The places of all jobs of a stage for which the one at a place waits, directly or through
/// others.
pub fn jobs_before(alloc: Global, jobs: &[PlanJob], at: u32) -> Result<List<u32>, Memory>
    requires small { length jobs.now < 2 ^ 32 }
    requires orderly { IsOrderly (waits_of_jobs jobs.now) }
    requires within { at < length jobs.now }
    ensures { IfOk result (λ places. places ≡ spec.transitive (waits_of_jobs jobs.now) at) }
{
    let edges = job_edges(alloc, jobs)?;
    ancestors(alloc, jobs.len() as u32, &edges, at)
}

/// The places of a list of so many, in order.
pub fn all_places(alloc: Global, count: usize) -> Result<List<usize>, Memory>
    ensures { IfOk result (λ places. places ≡ range_with_len 0 count) }
{
    let mut places = List::new(alloc);
    for at in 0..count {
        places.push(at)?;
    }
    Ok(places)
}

fn is_among(places: &[u32], at: usize) -> bool
    ensures { result ≡ list_any (λ place. place == at) places.now }
{
    places.iter().any(|place| *place as usize == at)
}

/// Those of the places of so many that are among some, each once and in order.
pub fn direct(alloc: Global, depends: &[u32], count: usize) -> Result<List<usize>, Memory>
    ensures { IfOk result (λ places. places ≡ spec.direct depends.now count) }
{
    let mut places = List::new(alloc);
    for at in 0..count {
        if is_among(depends, at) {
            places.push(at)?;
        }
    }
    Ok(places)
}
