ghost use Rattle.std.specs.Prelude.{◌≡◌, ◌<◌, ◌↔◌, true, ℕ, IfOk};
ghost use Rattle.pl_graph.specs.Graph.{AreAncestors, AreEdges, DependsTransitively};
ghost use Rattle.pl_graph.specs.Sets.{has};

use crate::edges::{edge_set, take_edge};
use pl_base::{List, Memory};
use std::alloc::Global;
use std::collections::BTreeSet;

/// All transitive dependencies of a node, ascending, in O((n + e) log n).
///
/// Nodes are the numbers below `n`. An edge `(a, b)` says that `a` depends on `b`, and may come
/// twice. Where the node lies on a cycle it is among its own ancestors.
pub fn ancestors(
    alloc: Global,
    n: u32,
    edges: &List<(u32, u32)>,
    node: u32,
) -> Result<List<u32>, Memory>
    requires edges { AreEdges n edges.now }
    requires node { node < n }
    ensures { IfOk result (λ nodes. AreAncestors edges.now node nodes) }
{
    let found = reach(alloc, edges.as_slice(), node)?;
    Ok(List::from_vec(found.iter().copied().collect(alloc)?))
}

/// The nodes to which walks lead from the node.
fn reach(alloc: Global, edges: &[(u32, u32)], node: u32) -> Result<BTreeSet<u32>, Memory>
    ensures { IfOk result (λ found. (b : ℕ) →
        (has found b ≡ true) ↔ DependsTransitively edges.now node b) }
{
    let mut rest = edge_set(alloc, edges)?;
    let mut found = BTreeSet::new(alloc);
    let mut todo = BTreeSet::new(alloc);
    todo.insert(node)?;
    while let Some(&from) = todo.first() {
        if let Some(to) = take_edge(&mut rest, from) {
            found.insert(to)?;
            todo.insert(to)?;
        } else {
            todo.remove(&from);
        }
    }
    Ok(found)
}
