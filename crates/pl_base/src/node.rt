ghost use Rattle.std.specs.Prelude.{◌≡◌, IfOk};

use crate::exact_copy::ExactCopy;
use crate::list::List;
use crate::memory::Memory;
use crate::place::Place;
use crate::text::Text;
use std::alloc::Global;

/// A node of a YAML text (YAML 1.2.2, section 3.2.1.1), and where it begins.
#[cycle(node)]
#[derive(Debug, Drop)]
pub struct Node {
    pub place: Place,
    pub body: NodeBody,
}

/// What a node is: a scalar's text, a sequence's items or a mapping's pairs, in order.
#[cycle(node)]
#[derive(Debug, Drop)]
pub enum NodeBody {
    Scalar(Text),
    Seq(List<Node>),
    Map(List<NodePair>),
}

/// A key of a mapping, where it begins, and its value.
#[cycle(node)]
#[derive(Debug, Drop)]
pub struct NodePair {
    pub key: Text,
    pub key_place: Place,
    pub item: Node,
}

#[cycle(copied_node)]
fn copy_node(node: &Node, alloc: Global) -> Result<Node, Memory>
    ensures { IfOk result (λ copy. copy ≡ node.now) }
{
    let place = node.place.copy(alloc)?;
    let body = copy_body(&node.body, alloc)?;
    Ok(Node { place, body })
}

#[cycle(copied_node)]
fn copy_body(body: &NodeBody, alloc: Global) -> Result<NodeBody, Memory>
    ensures { IfOk result (λ copy. copy ≡ body.now) }
{
    match body {
        NodeBody::Scalar(text) => Ok(NodeBody::Scalar(text.copy(alloc)?)),
        NodeBody::Seq(items) => Ok(NodeBody::Seq(copy_items(items, alloc)?)),
        NodeBody::Map(pairs) => Ok(NodeBody::Map(copy_pairs(pairs, alloc)?)),
    }
}

#[cycle(copied_node)]
fn copy_items(items: &List<Node>, alloc: Global) -> Result<List<Node>, Memory>
    ensures { IfOk result (λ copy. copy ≡ items.now) }
{
    let mut copies = List::new(alloc);
    for item in items.as_slice() {
        copies.push(copy_node(item, alloc)?)?;
    }
    Ok(copies)
}

#[cycle(copied_node)]
fn copy_pairs(pairs: &List<NodePair>, alloc: Global) -> Result<List<NodePair>, Memory>
    ensures { IfOk result (λ copy. copy ≡ pairs.now) }
{
    let mut copies = List::new(alloc);
    for pair in pairs.as_slice() {
        copies.push(copy_pair(pair, alloc)?)?;
    }
    Ok(copies)
}

#[cycle(copied_node)]
fn copy_pair(pair: &NodePair, alloc: Global) -> Result<NodePair, Memory>
    ensures { IfOk result (λ copy. copy ≡ pair.now) }
{
    let key = pair.key.copy(alloc)?;
    let key_place = pair.key_place.copy(alloc)?;
    let item = copy_node(&pair.item, alloc)?;
    Ok(NodePair {
        key,
        key_place,
        item,
    })
}

impl ExactCopy for Node {
    fn copy(&self, alloc: Global) -> Result<Node, Memory> {
        copy_node(self, alloc)
    }
}
