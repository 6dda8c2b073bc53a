use super::graphs::are_edges;
use pl_base::{List, Memory};
use pl_graph::{GraphFault, ancestors, order};
use std::alloc::Global;
use std::test::Fail;

const N: u32 = 16_000;

/// A chain, each node on the one behind it.
fn chain(alloc: Global) -> Result<List<(u32, u32)>, Memory> {
    let mut edges = List::new(alloc);
    for node in 1..N {
        edges.push((node - 1, node))?;
    }
    Ok(edges)
}

/// The chain closed to one cycle.
fn closed(alloc: Global) -> Result<List<(u32, u32)>, Memory> {
    let mut edges = chain(alloc)?;
    edges.push((N - 1, 0))?;
    Ok(edges)
}

/// A fan, the first node on all others.
fn fan(alloc: Global) -> Result<List<(u32, u32)>, Memory> {
    let mut edges = List::new(alloc);
    for node in 1..N {
        edges.push((0, node))?;
    }
    Ok(edges)
}

/// Whether the nodes go up by one from this one.
fn go_up(nodes: &[u32], first: u32) -> bool {
    let mut next = first;
    for node in nodes {
        if *node != next {
            return false;
        }
        next = next.wrapping_add(1);
    }
    true
}

/// Whether the nodes go down by one from this one.
fn go_down(nodes: &[u32], first: u32) -> bool {
    let mut next = first;
    for node in nodes {
        if *node != next {
            return false;
        }
        next = next.wrapping_sub(1);
    }
    true
}

/// The order of a graph's nodes, or no node where there is none.
fn order_of(alloc: Global, edges: &List<(u32, u32)>) -> List<u32> {
    if !are_edges(N, edges.as_slice()) {
        return List::new(alloc);
    }
    match order(alloc, N, edges) {
        Ok(nodes) => nodes,
        Err(_) => List::new(alloc),
    }
}

fn chain_is_ordered(alloc: Global) -> Result<bool, Memory> {
    let nodes = order_of(alloc, &chain(alloc)?);
    Ok(nodes.len() == 16_000 && go_down(nodes.as_slice(), N - 1))
}

fn fan_is_ordered(alloc: Global) -> Result<bool, Memory> {
    let nodes = order_of(alloc, &fan(alloc)?);
    let ends_so = nodes.len() == 16_000 && nodes.get(15_999) == Some(&0);
    Ok(ends_so && go_up(nodes.as_slice().split_at(nodes.len().min(15_999)).0, 1))
}

fn has_cycle(alloc: Global, edges: &List<(u32, u32)>) -> bool {
    if !are_edges(N, edges.as_slice()) {
        return false;
    }
    match order(alloc, N, edges) {
        Err(GraphFault::Cycle(nodes)) => nodes.len() == 16_000 && go_up(nodes.as_slice(), 0),
        _ => false,
    }
}

fn has_ancestors(alloc: Global, edges: &List<(u32, u32)>) -> Result<bool, Memory> {
    if !are_edges(N, edges.as_slice()) {
        return Ok(false);
    }
    let nodes = ancestors(alloc, N, edges, 0)?;
    Ok(nodes.len() == 15_999 && go_up(nodes.as_slice(), 1))
}

#[test]
fn orders_sixteen_thousand_nodes(rt: HostRuntime) -> Result<(), Fail> {
    let alloc = rt.alloc();
    assert!(rt; chain_is_ordered(alloc)?);
    assert!(rt; fan_is_ordered(alloc)?);
    assert!(rt; has_cycle(alloc, &closed(alloc)?));
    assert!(rt; has_ancestors(alloc, &chain(alloc)?)?);
    Ok(())
}
