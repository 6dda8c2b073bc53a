//! All graphs of up to four nodes: their orders or cycles, and the ancestors of each node, against
//! the numbers that `bench/graphs/sums.py` makes by slow definitions, in another language.

ghost use Rattle.std.specs.Prelude.{◌↔◌, IsTrue};
ghost use Rattle.pl_graph.specs.Graph.{AreEdges};

use pl_base::{List, Memory};
use pl_graph::{GraphFault, ancestors, order};
use std::alloc::Global;
use std::test::Fail;

pub fn are_edges(n: u32, edges: &[(u32, u32)]) -> bool
    ensures { IsTrue result ↔ AreEdges n edges.now }
{
    edges.iter().all(|edge| edge.0 < n && edge.1 < n)
}

/// What FNV-1a's sum becomes by one number more.
fn mixed(sum: u64, number: u32) -> u64 {
    (sum ^ u64::from(number)).wrapping_mul(0x100_0000_01b3)
}

/// The sum with a list: its length and its nodes.
fn with_all(sum: u64, nodes: &[u32]) -> u64 {
    let mut sum = mixed(sum, u32::try_from(nodes.len()).unwrap_or(u32::MAX));
    for node in nodes {
        sum = mixed(sum, *node);
    }
    sum
}

/// The sum with a graph's order behind a 1, or its cycle behind a 0.
fn with_order(
    alloc: Global,
    sum: u64,
    n: u32,
    edges: &List<(u32, u32)>,
) -> Result<u64, GraphFault> {
    if !are_edges(n, edges.as_slice()) {
        return Err(GraphFault::Memory);
    }
    match order(alloc, n, edges) {
        Ok(nodes) => Ok(with_all(mixed(sum, 1), nodes.as_slice())),
        Err(GraphFault::Cycle(nodes)) => Ok(with_all(mixed(sum, 0), nodes.as_slice())),
        Err(GraphFault::Memory) => Err(GraphFault::Memory),
    }
}

/// The sum with the ancestors of each node.
fn with_ancestors(
    alloc: Global,
    sum: u64,
    n: u32,
    edges: &List<(u32, u32)>,
) -> Result<u64, Memory> {
    if !are_edges(n, edges.as_slice()) {
        return Err(Memory);
    }
    let mut sum = sum;
    for node in 0..n {
        sum = with_all(sum, ancestors(alloc, n, edges, node)?.as_slice());
    }
    Ok(sum)
}

/// The edges of the graph of n nodes with this number: a bit for each pair of nodes.
fn numbered(alloc: Global, n: u32, number: u32) -> Result<List<(u32, u32)>, Memory> {
    let mut bits = number;
    let mut edges = List::new(alloc);
    for node in 0..n {
        for dependency in 0..n {
            if bits % 2 == 1 {
                edges.push((node, dependency))?;
            }
            bits /= 2;
        }
    }
    Ok(edges)
}

fn with_graph(alloc: Global, sum: u64, n: u32, number: u32) -> Result<u64, GraphFault> {
    let edges = numbered(alloc, n, number)?;
    let sum = with_order(alloc, sum, n, &edges)?;
    Ok(with_ancestors(alloc, sum, n, &edges)?)
}

/// The sum of so many graphs of n nodes.
fn sum_of(alloc: Global, n: u32, graphs: u32) -> Result<u64, GraphFault> {
    let mut sum = 0xcbf2_9ce4_8422_2325;
    for number in 0..graphs {
        sum = with_graph(alloc, sum, n, number)?;
    }
    Ok(sum)
}

fn has_sum(alloc: Global, n: u32, graphs: u32, sum: u64) -> bool {
    match sum_of(alloc, n, graphs) {
        Ok(found) => found == sum,
        Err(_) => false,
    }
}

#[test]
fn agrees_with_the_definitions_up_to_four_nodes(rt: HostRuntime) -> Result<(), Fail> {
    assert!(rt; has_sum(rt.alloc(), 0, 1, 0x082f_2207_b4e8_8cc4));
    assert!(rt; has_sum(rt.alloc(), 1, 2, 0xd19d_addd_44b1_a465));
    assert!(rt; has_sum(rt.alloc(), 2, 16, 0xc06b_e6ba_2c04_b5dd));
    assert!(rt; has_sum(rt.alloc(), 3, 512, 0x83ec_2f0b_2c33_ca71));
    assert!(rt; has_sum(rt.alloc(), 4, 65_536, 0x56de_159c_6486_19f4));
    Ok(())
}
