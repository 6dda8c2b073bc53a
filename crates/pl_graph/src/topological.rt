ghost use Rattle.std.specs.Prelude.{◌≡◌, IfErr, IfOk, List, OnOk, length, ℕ};
ghost use Rattle.pl_graph.specs.Faults.{OnCycle};
ghost use Rattle.pl_graph.specs.Graph.{AreEdges, IsCanonicalCycle, IsCycle, IsLeastTopological};

use crate::fault::GraphFault;
use crate::placing::{Placement, place_nodes};
use crate::walking::canonical_cycle;
use pl_base::List;
use std::alloc::Global;

/// All nodes, each after those that it depends on, the least possible first at each place, in
/// O((n + e) log n).
///
/// Nodes are the numbers below `n`. An edge `(a, b)` says that `a` depends on `b`, and may come
/// twice.
///
/// # Errors
///
/// `Cycle` exactly where the edges have a cycle, with the canonical one: nodes without remaining
/// dependencies are taken away while there are any; from the least remaining node the least
/// remaining dependency is followed until a node repeats; the cycle from there is turned to begin
/// with its least node. `Memory` where memory was refused.
pub fn order(alloc: Global, n: u32, edges: &List<(u32, u32)>) -> Result<List<u32>, GraphFault>
    requires { AreEdges n edges.now }
    ensures order { IfOk result (λ nodes. IsLeastTopological n edges.now nodes) }
    ensures len { IfOk result (λ nodes. length nodes ≡ n) }
    ensures acyclic { OnOk result ((nodes : List ℕ) → IsCycle edges.now nodes → ⊥) }
    ensures cycle { IfErr result (λ fault. OnCycle fault (λ nodes. IsCycle edges.now nodes)) }
    ensures canonical { IfErr result (λ fault.
        OnCycle fault (λ nodes. IsCanonicalCycle n edges.now nodes)) }
{
    let Placement { placed, missing } = place_nodes(alloc, n, edges.as_slice())?;
    match missing.first() {
        None => Ok(List::from_vec(placed)),
        Some(edge) => {
            let cycle = canonical_cycle(alloc, &missing, edge.0)?;
            Err(GraphFault::Cycle(cycle))
        }
    }
}
