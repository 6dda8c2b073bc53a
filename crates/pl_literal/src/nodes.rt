ghost use Rattle.std.specs.Prelude.{◌≡◌, map, IfOk};
ghost use Rattle.pl_literal.specs.Literal.{origin_at, literal, literal_body, literal_pair};

use pl_base::{
    Crossing, DEEPEST, ExactCopy, List, MarkedNode, MarkedPair, Memory, Node, NodeBody, NodePair,
    Origin, Place, SharedList, Value,
};
use std::alloc::Global;

/// The origin of what is written at a place, in a file that was reached across these borders.
pub fn origin_at(
    alloc: Global,
    place: &Place,
    crossings: &SharedList<Crossing>,
) -> Result<Origin, Memory>
    ensures { IfOk result (λ origin. origin ≡ origin_at crossings.now place.now) }
{
    let source = place.copy(alloc)?;
    let crossings = crossings.copy(alloc)?;
    Ok(Origin { source, crossings })
}

/// A node as a value that isn't evaluated: a scalar is its text, a sequence an array, a mapping an
/// object. Every node and every key comes from its own place, across the given borders. Memory
/// comes too where the node is deeper than `DEEPEST`.
pub fn literal(
    alloc: Global,
    node: &Node,
    crossings: &SharedList<Crossing>,
) -> Result<MarkedNode, Memory>
    ensures { IfOk result (λ value. value ≡ literal crossings.now node.now) }
{
    node_of(alloc, node, crossings, DEEPEST)
}

#[cycle(literals)]
fn node_of(
    alloc: Global,
    node: &Node,
    crossings: &SharedList<Crossing>,
    levels: u32,
) -> Result<MarkedNode, Memory>
    ensures { IfOk result (λ value. value ≡ literal crossings.now node.now) }
{
    let origin = origin_at(alloc, &node.place, crossings)?;
    let below = levels.checked_sub(1).ok_or(Memory)?;
    let value = body_of(alloc, &node.body, crossings, below)?;
    Ok(MarkedNode { origin, value })
}

#[cycle(literals)]
fn body_of(
    alloc: Global,
    body: &NodeBody,
    crossings: &SharedList<Crossing>,
    levels: u32,
) -> Result<Value, Memory>
    ensures { IfOk result (λ value. value ≡ literal_body crossings.now body.now) }
{
    match body {
        NodeBody::Scalar(text) => Ok(Value::Str(text.copy(alloc)?)),
        NodeBody::Seq(items) => Ok(Value::Array(items_of(alloc, items, crossings, levels)?)),
        NodeBody::Map(pairs) => Ok(Value::Object(pairs_of(alloc, pairs, crossings, levels)?)),
    }
}

#[cycle(literals)]
fn items_of(
    alloc: Global,
    items: &List<Node>,
    crossings: &SharedList<Crossing>,
    levels: u32,
) -> Result<List<MarkedNode>, Memory>
    ensures { IfOk result (λ values. values ≡ map (literal crossings.now) items.now) }
{
    let mut values = List::new(alloc);
    for item in items.as_slice() {
        values.push(node_of(alloc, item, crossings, levels)?)?;
    }
    Ok(values)
}

#[cycle(literals)]
fn pairs_of(
    alloc: Global,
    pairs: &List<NodePair>,
    crossings: &SharedList<Crossing>,
    levels: u32,
) -> Result<List<MarkedPair>, Memory>
    ensures { IfOk result (λ values. values ≡ map (literal_pair crossings.now) pairs.now) }
{
    let mut values = List::new(alloc);
    for pair in pairs.as_slice() {
        values.push(pair_of(alloc, pair, crossings, levels)?)?;
    }
    Ok(values)
}

#[cycle(literals)]
fn pair_of(
    alloc: Global,
    pair: &NodePair,
    crossings: &SharedList<Crossing>,
    levels: u32,
) -> Result<MarkedPair, Memory>
    ensures { IfOk result (λ value. value ≡ literal_pair crossings.now pair.now) }
{
    let key = pair.key.copy(alloc)?;
    let key_origin = origin_at(alloc, &pair.key_place, crossings)?;
    let item = node_of(alloc, &pair.item, crossings, levels)?;
    Ok(MarkedPair {
        key,
        key_origin,
        item,
    })
}
