ghost use Rattle.std.specs.Prelude.{◌≡◌, ◌++◌, length, slice_get, IfOk, IfSome, OnOk};
ghost use Rattle.pl_depends.specs.Cycles as spec;
ghost use Rattle.pl_depends.specs.Cycles.{AreOn, FirstCycle, HasNoCycle, HaveNoCycle, IsAcyclic};
ghost use Rattle.pl_depends.specs.Cycles.{IsBefore, IsCycleOf, JobCycle, JobCycles};
ghost use Rattle.pl_depends.specs.Gives.{FaultIs, Faults, Judges};
ghost use Rattle.pl_depends.specs.Graph.{IsGraph, job_graph};

use crate::fault::{PlanCode, PlanFault};
use crate::graph::{Waiting, edges_of, job_graph, stage_graph};
use crate::places::place_of;
use pl_base::{ExactCopy, List, Memory, Text};
use pl_graph::{GraphFault, order};
use pl_schema::{JobSpec, StageSpec};
use pl_schema_parts::refusal;
use std::alloc::Global;

/// The cycle of a graph, if it has one.
fn cycle_in(alloc: Global, graph: &[Waiting]) -> Result<Option<List<u32>>, Memory>
    requires { IsGraph graph.now }
    ensures is { IfOk result (λ found. IsCycleOf graph.now found) }
    ensures within { IfOk result (λ found. IfSome found (λ nodes. AreOn graph.now nodes)) }
{
    let count = place_of(graph.len())?;
    let edges = edges_of(alloc, graph)?;
    match order(alloc, count, &edges) {
        Ok(_nodes) => Ok(None),
        Err(GraphFault::Cycle(nodes)) => Ok(Some(nodes)),
        Err(GraphFault::Memory) => Err(Memory),
    }
}

/// Puts the name of the one at a place behind those that were found.
fn push_name(
    alloc: Global,
    names: &mut List<Text>,
    graph: &[Waiting],
    node: u32,
) -> Result<(), Memory>
    ensures { OnOk result
        (names.new ≡ names.old ++ spec.name_of (slice_get graph.now node)) }
{
    match graph.get(node as usize) {
        Some(waiting) => {
            names.push(waiting.name.copy(alloc)?)?;
            Ok(())
        }
        None => Ok(()),
    }
}

/// The names of those at these places.
fn names_on(alloc: Global, graph: &[Waiting], nodes: &[u32]) -> Result<List<Text>, Memory>
    ensures { IfOk result (λ names. names ≡ spec.names_on graph.now nodes.now) }
{
    let mut names = List::new(alloc);
    for node in nodes {
        push_name(alloc, &mut names, graph, *node)?;
    }
    Ok(names)
}

/// The refusal of a cycle, at its first one.
fn cycle_fault(alloc: Global, graph: &[Waiting], nodes: &[u32]) -> PlanFault
    requires { AreOn graph.now nodes.now }
    ensures { Faults result (spec.cycle_fault graph.now nodes.now) }
{
    match names_on(alloc, graph, nodes) {
        Ok(names) => {
            let first = &graph[nodes[0] as usize];
            refusal(alloc, PlanCode::Cycle(names), &first.place)
        }
        Err(Memory) => PlanFault::Memory,
    }
}

/// Refuses the cycle of a stage's jobs.
fn judge_jobs(alloc: Global, jobs: &[JobSpec]) -> Result<(), PlanFault>
    ensures first { Judges result (JobCycle jobs.now) }
    ensures acyclic { OnOk result (IsAcyclic (job_graph jobs.now)) }
{
    let graph = job_graph(alloc, jobs)?;
    match cycle_in(alloc, graph.as_slice())? {
        None => Ok(()),
        Some(nodes) => Err(cycle_fault(alloc, graph.as_slice(), nodes.as_slice())),
    }
}

/// Refuses the first cycle among the jobs of stages.
fn judge_stages(alloc: Global, stages: &[StageSpec]) -> Result<(), PlanFault>
    ensures first { Judges result (JobCycles stages.now) }
    ensures acyclic { OnOk result (HaveNoCycle stages.now) }
{
    for stage in stages {
        judge_jobs(alloc, stage.jobs.as_slice())?;
    }
    Ok(())
}

/// The refusal of a cycle of stages, or of one among the jobs of those before it.
fn fault_before(alloc: Global, stages: &[StageSpec], graph: &[Waiting], nodes: &[u32]) -> PlanFault
    requires on { AreOn graph.now nodes.now }
    requires len { length graph.now ≡ length stages.now }
    ensures { FaultIs result (IsBefore stages.now graph.now nodes.now) }
{
    let (before, _) = stages.split_at(nodes[0] as usize);
    match judge_stages(alloc, before) {
        Ok(()) => cycle_fault(alloc, graph, nodes),
        Err(fault) => fault,
    }
}

/// Refuses the first cycle of stages, or of the jobs of one stage.
pub fn judge_cycles(alloc: Global, stages: &[StageSpec]) -> Result<(), PlanFault>
    ensures first { Judges result (FirstCycle stages.now) }
    ensures acyclic { OnOk result (HasNoCycle stages.now) }
{
    let graph = stage_graph(alloc, stages)?;
    match cycle_in(alloc, graph.as_slice())? {
        None => judge_stages(alloc, stages),
        Some(nodes) => Err(fault_before(alloc, stages, graph.as_slice(), nodes.as_slice())),
    }
}
