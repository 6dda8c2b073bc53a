ghost use Rattle.std.specs.Prelude.{◌≡◌, ◌<◌, ◌↔◌, IfOk, true, ℕ};
ghost use Rattle.pl_graph.specs.Graph.{AreEdges};
ghost use Rattle.pl_graph.specs.Placing.{IsPlacement};
ghost use Rattle.pl_graph.specs.Sets.{has};

use crate::edges::{edge_set, is_free, take_edge, turned_edges};
use pl_base::Memory;
use std::alloc::Global;
use std::collections::BTreeSet;

/// Nodes that were placed, and what each other node misses.
#[derive(Drop)]
pub struct Placement {
    /// The nodes in the order in which they were placed.
    pub placed: Vec<u32>,
    /// The edges to nodes that aren't placed.
    pub missing: BTreeSet<(u32, u32)>,
}

/// Places node after node: of those whose dependencies are all placed the least, while there is
/// any.
pub fn place_nodes(alloc: Global, n: u32, edges: &[(u32, u32)]) -> Result<Placement, Memory>
    requires { AreEdges n edges.now }
    ensures { IfOk result (λ placement. IsPlacement n edges.now
        placement.placed.items placement.missing) }
{
    let mut dependents = turned_edges(alloc, edges)?;
    let mut missing = edge_set(alloc, edges)?;
    // Each node that isn't placed and misses none is among these.
    let mut candidates = all_nodes(alloc, n)?;
    let mut placed = Vec::new(alloc);
    // The node that was placed last. At first it is none of the nodes, and no edge leads from it.
    let mut last = n;
    loop {
        if let Some(dependent) = take_edge(&mut dependents, last) {
            missing.remove(&(dependent, last));
            candidates.insert(dependent)?;
        } else if let Some(node) = candidates.pop_first() {
            if is_free(&missing, node) {
                placed.push(node)?;
                last = node;
            }
        } else {
            return Ok(Placement { placed, missing });
        }
    }
}

/// The nodes, which are the numbers below `n`.
fn all_nodes(alloc: Global, n: u32) -> Result<BTreeSet<u32>, Memory>
    ensures { IfOk result (λ nodes. (x : ℕ) → (has nodes x ≡ true) ↔ (x < n)) }
{
    let mut nodes = BTreeSet::new(alloc);
    for node in 0..n {
        nodes.insert(node)?;
    }
    Ok(nodes)
}
