ghost use Rattle.std.specs.Prelude.{◌≡◌, ◌<◌, ◌^◌, IfOk, length};
ghost use Rattle.pl_graph.specs.Waits.{edges_by};
ghost use Rattle.pl_plan.specs.Laws.{waits_of_jobs, waits_of_stages};

use pl_base::{List, Memory};
use pl_graph::push_edges;
use pl_plan::{PlanJob, PlanStage};
use std::alloc::Global;

/// Who waits, and for whom, of the stages of a plan.
pub fn stage_edges(alloc: Global, stages: &[PlanStage]) -> Result<List<(u32, u32)>, Memory>
    requires { length stages.now < 2 ^ 32 }
    ensures { IfOk result (λ edges. edges ≡ edges_by 0 (waits_of_stages stages.now)) }
{
    let mut edges = List::new(alloc);
    for (at, stage) in stages.iter().enumerate() {
        push_edges(&mut edges, at as u32, stage.depends.as_slice())?;
    }
    Ok(edges)
}

/// Who waits, and for whom, of the jobs of a stage.
pub fn job_edges(alloc: Global, jobs: &[PlanJob]) -> Result<List<(u32, u32)>, Memory>
    requires { length jobs.now < 2 ^ 32 }
    ensures { IfOk result (λ edges. edges ≡ edges_by 0 (waits_of_jobs jobs.now)) }
{
    let mut edges = List::new(alloc);
    for (at, job) in jobs.iter().enumerate() {
        push_edges(&mut edges, at as u32, job.depends.as_slice())?;
    }
    Ok(edges)
}
