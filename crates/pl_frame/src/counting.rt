ghost use Rattle.std.specs.Prelude.{◌≡◌, sum, map};
ghost use Rattle.pl_frame.specs.Trees.{nodes_in, at_most};
ghost use Rattle.pl_frame.specs.Counting.{left_of, nodes_in_value, nodes_in_pair};

use pl_base::{List, MarkedNode, MarkedPair, Value};

/// How many nodes a tree has, keys not counted, or None where there are more than `most`. It takes
/// no memory, and looks at no more than so many nodes.
pub fn count_nodes(node: &MarkedNode, most: u32) -> Option<u32>
    ensures { result ≡ at_most most (nodes_in node.now) }
{
    let left = spend_node(node, most)?;
    Some(most - left)
}

/// What is left of a count when a tree's nodes are taken off, or None where there are more nodes.
#[cycle(spending)]
fn spend_node(node: &MarkedNode, left: u32) -> Option<u32>
    ensures { result ≡ left_of left (nodes_in node.now) }
{
    let left = left.checked_sub(1)?;
    spend_value(&node.value, left)
}

#[cycle(spending)]
fn spend_value(value: &Value, left: u32) -> Option<u32>
    ensures { result ≡ left_of left (nodes_in_value value.now) }
{
    match value {
        Value::Array(items) => spend_items(items, left),
        Value::Object(pairs) => spend_pairs(pairs, left),
        _ => Some(left),
    }
}

#[cycle(spending)]
fn spend_items(items: &List<MarkedNode>, left: u32) -> Option<u32>
    ensures { result ≡ left_of left (sum (map nodes_in items.now)) }
{
    let mut left = left;
    for item in items.as_slice() {
        left = spend_node(item, left)?;
    }
    Some(left)
}

#[cycle(spending)]
fn spend_pairs(pairs: &List<MarkedPair>, left: u32) -> Option<u32>
    ensures { result ≡ left_of left (sum (map nodes_in_pair pairs.now)) }
{
    let mut left = left;
    for pair in pairs.as_slice() {
        left = spend_node(&pair.item, left)?;
    }
    Some(left)
}
