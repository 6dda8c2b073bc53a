ghost use Rattle.std.specs.Prelude.{◌≡◌, ◌<◌, ◌≤◌, ℕ, All, Contains, IfOk, length, slice_index};
ghost use Rattle.pl_graph.specs.Sets.{GoesOn, IsNext};
ghost use Rattle.pl_graph.specs.Walking.{AllGoOn, IsCycleFrom};

use crate::edges::first_neighbor;
use pl_base::{List, Memory};
use std::alloc::Global;
use std::collections::BTreeSet;

/// The cycle to which the walk from the first node leads, always to the least next node, turned to
/// begin with its least node.
pub fn canonical_cycle(
    alloc: Global,
    edges: &BTreeSet<(u32, u32)>,
    first: u32,
) -> Result<List<u32>, Memory>
    requires goes_on { AllGoOn edges.now }
    requires goes { GoesOn edges.now first }
    ensures cycle { IfOk result (IsCycleFrom edges.now first) }
    ensures least { IfOk result (λ cycle. All (λ x. slice_index cycle 0 ≤ x) cycle) }
{
    let mut cycle = cycle_from(alloc, edges, first)?;
    let start = place_of(&cycle, least_of(&cycle));
    cycle.rotate_left(start);
    Ok(List::from_vec(cycle))
}

/// The cycle to which the walk from the first node leads, from the node at which it comes to it.
fn cycle_from(alloc: Global, edges: &BTreeSet<(u32, u32)>, first: u32) -> Result<Vec<u32>, Memory>
    requires goes_on { AllGoOn edges.now }
    requires goes { GoesOn edges.now first }
    ensures { IfOk result (λ cycle. IsCycleFrom edges.now first cycle.items) }
{
    let mut seen = BTreeSet::new(alloc);
    let mut nodes = Vec::new(alloc);
    let mut node = first;
    while seen.insert(node)? {
        nodes.push(node)?;
        node = next_of(edges, node);
    }
    let start = place_of(&nodes, node);
    Ok(nodes.split_off(start)?)
}

/// The least node to which an edge leads from the node.
fn next_of(edges: &BTreeSet<(u32, u32)>, node: u32) -> u32
    requires { GoesOn edges.now node }
    ensures { IsNext edges.now node result }
{
    first_neighbor(edges, node).unwrap_or(node)
}

/// The first place of a node that is among the nodes.
fn place_of(nodes: &[u32], node: u32) -> usize
    requires { Contains nodes.now node }
    ensures within { result < length nodes.now }
    ensures is { slice_index nodes.now result ≡ node }
{
    nodes.iter().position(|other| *other == node).unwrap_or(0)
}

/// The least of the nodes.
fn least_of(nodes: &[u32]) -> u32
    requires { 0 < length nodes.now }
    ensures on { Contains nodes.now result }
    ensures least { All (λ x. result ≤ x) nodes.now }
{
    nodes.iter().copied().min().unwrap_or(0)
}
