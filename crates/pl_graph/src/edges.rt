ghost use Rattle.std.specs.Prelude.{◌≡◌, IfOk, false, true};
ghost use Rattle.std.specs.BTreeSet.{IsFromIterResult};
ghost use Rattle.pl_graph.specs.Sets.{GoesOn, HasNone, IsFirst, Takes, edge_cmp};
ghost use Rattle.pl_graph.specs.Sets.{turned_of};

use std::alloc::{AllocError, Global};
use std::collections::BTreeSet;

/// The edges as a set.
pub fn edge_set(alloc: Global, edges: &[(u32, u32)]) -> Result<BTreeSet<(u32, u32)>, AllocError>
    ensures { IfOk result (IsFromIterResult edge_cmp edges.now) }
{
    edges.iter().copied().collect(alloc)
}

/// The edges as a set, each turned round.
pub fn turned_edges(alloc: Global, edges: &[(u32, u32)]) -> Result<BTreeSet<(u32, u32)>, AllocError>
    ensures { IfOk result (IsFromIterResult edge_cmp (turned_of edges.now)) }
{
    edges.iter().map(|edge| (edge.1, edge.0)).collect(alloc)
}

/// The least node to which an edge leads from the node.
pub fn first_neighbor(edges: &BTreeSet<(u32, u32)>, node: u32) -> Option<u32>
    ensures { IsFirst edges.now node result }
{
    match edges.range((node, 0)..).next() {
        Some(edge) if edge.0 == node => Some(edge.1),
        _ => None,
    }
}

/// Whether no edge leads from the node.
pub fn is_free(edges: &BTreeSet<(u32, u32)>, node: u32) -> bool
    ensures free { result ≡ true → HasNone edges.now node }
    ensures bound { result ≡ false → GoesOn edges.now node }
{
    first_neighbor(edges, node).is_none()
}

/// Takes the edge from the node to the least of its neighbors out of the set, and tells which that
/// is. Where no edge leads from the node, the set stays.
pub fn take_edge(edges: &mut BTreeSet<(u32, u32)>, node: u32) -> Option<u32>
    ensures { Takes node edges.old result edges.new }
{
    let first = first_neighbor(edges, node)?;
    edges.remove(&(node, first));
    Some(first)
}
