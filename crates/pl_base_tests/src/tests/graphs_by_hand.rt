use super::graphs::are_edges;
use pl_base::{List, Memory};
use pl_graph::{GraphFault, ancestors, order};
use std::alloc::Global;
use std::test::Fail;

/// Graphs, a line each: how many nodes, an edge `A>B` for each node A that depends on a node B,
/// what is asked, and the nodes of the answer. The first cycle is A on C, B on A, C on B.
const BY_HAND: &str = "0||order|
3||order|0 1 2
3|1>0|order|0 1 2
3|0>2 0>2|order|1 2 0
4|0>3 1>3 3>2|order|2 3 0 1
5|0>4 1>0 2>1 3>0|order|4 0 1 2 3
3|0>2 1>0 2>1|cycle|0 2 1
4|3>3|cycle|3
3|1>0 1>2 2>1|cycle|1 2
4|0>1 1>2 2>3 3>2|cycle|2 3
4|0>3 3>1 1>2 2>3|cycle|1 2 3
3|0>2 0>1 0>1 1>0 2>0|cycle|0 1
4|0>3 3>0 1>2 2>1|cycle|0 3
1||0|
3|1>0 2>1|2|0 1
3|1>0 2>1|0|
5|4>3 4>3 3>0 4>1 2>4|4|0 1 3
3|0>2 1>0 2>1|1|0 1 2";

/// A number, or one that no node has.
fn number(word: &str) -> u32 {
    word.parse::<u32>().unwrap_or(u32::MAX)
}

fn edges_of(alloc: Global, words: &str) -> Result<List<(u32, u32)>, Memory> {
    let mut edges = List::new(alloc);
    for word in words.split_whitespace() {
        let (node, dependency) = word.split_once('>').unwrap_or((word, ""));
        edges.push((number(node), number(dependency)))?;
    }
    Ok(edges)
}

/// Whether these are the nodes of these words.
fn are(nodes: &[u32], words: &str) -> bool {
    let mut words = words.split_whitespace();
    for node in nodes {
        match words.next() {
            Some(word) if number(word) == *node => {}
            _ => return false,
        }
    }
    words.next().is_none()
}

fn is_ordered(alloc: Global, n: u32, edges: &List<(u32, u32)>, kind: &str, nodes: &str) -> bool {
    if !are_edges(n, edges.as_slice()) {
        return false;
    }
    match order(alloc, n, edges) {
        Ok(found) => kind == "order" && are(found.as_slice(), nodes),
        Err(GraphFault::Cycle(found)) => kind == "cycle" && are(found.as_slice(), nodes),
        Err(GraphFault::Memory) => false,
    }
}

fn has_ancestors(alloc: Global, n: u32, edges: &List<(u32, u32)>, node: u32, nodes: &str) -> bool {
    if !are_edges(n, edges.as_slice()) || node >= n {
        return false;
    }
    match ancestors(alloc, n, edges, node) {
        Ok(found) => are(found.as_slice(), nodes),
        Err(_) => false,
    }
}

fn holds(alloc: Global, line: &str) -> Result<bool, Memory> {
    let (n, rest) = line.split_once('|').unwrap_or((line, ""));
    let (edges, rest) = rest.split_once('|').unwrap_or((rest, ""));
    let (asked, nodes) = rest.split_once('|').unwrap_or((rest, ""));
    let edges = edges_of(alloc, edges)?;
    Ok(match asked {
        "order" | "cycle" => is_ordered(alloc, number(n), &edges, asked, nodes),
        _ => has_ancestors(alloc, number(n), &edges, number(asked), nodes),
    })
}

#[test]
fn graphs_by_hand(rt: HostRuntime) -> Result<(), Fail> {
    for line in BY_HAND.split('\n') {
        assert!(rt; holds(rt.alloc(), line)?, "{line}");
    }
    Ok(())
}
