ghost use Rattle.std.specs.Prelude.{◌≡◌, sum, map};
ghost use Rattle.pl_frame.specs.Counting.{left_of};
ghost use Rattle.pl_root.specs.Counting.{nodes_in, nodes_in_body, nodes_in_pair};

use pl_base::{List, Node, NodeBody, NodePair};

/// What is left of a count when a tree's nodes are taken off, keys not counted, or None where there
/// are more nodes.
#[cycle(spending)]
pub(crate) fn spend_node(node: &Node, left: u32) -> Option<u32>
    ensures { result ≡ left_of left (nodes_in node.now) }
{
    let left = left.checked_sub(1)?;
    spend_body(&node.body, left)
}

#[cycle(spending)]
fn spend_body(body: &NodeBody, left: u32) -> Option<u32>
    ensures { result ≡ left_of left (nodes_in_body body.now) }
{
    match body {
        NodeBody::Scalar(_) => Some(left),
        NodeBody::Seq(items) => spend_items(items, left),
        NodeBody::Map(pairs) => spend_pairs(pairs, left),
    }
}

#[cycle(spending)]
fn spend_items(items: &List<Node>, left: u32) -> Option<u32>
    ensures { result ≡ left_of left (sum (map nodes_in items.now)) }
{
    let mut left = left;
    for item in items.as_slice() {
        left = spend_node(item, left)?;
    }
    Some(left)
}

#[cycle(spending)]
fn spend_pairs(pairs: &List<NodePair>, left: u32) -> Option<u32>
    ensures { result ≡ left_of left (sum (map nodes_in_pair pairs.now)) }
{
    let mut left = left;
    for pair in pairs.as_slice() {
        left = spend_node(&pair.item, left)?;
    }
    Some(left)
}
