ghost use Rattle.std.specs.Prelude.{◌≡◌, IfOk};
ghost use Rattle.std.specs.List.{filter_map};
ghost use Rattle.pl_eval.specs.LookUps.{member, member_behind, items_of, projected};

use crate::look_ups::take_property;
use pl_base::{List, MarkedNode, MarkedPair, Memory, Text, Value};
use std::alloc::Global;

/// Takes the property of that name out of a value. Only objects have properties.
fn take_member(of: Value, name: &Text) -> Option<MarkedNode>
    ensures { result ≡ member name.now of }
{
    match of {
        Value::Object(pairs) => take_property(pairs, name),
        _ => None,
    }
}

/// What the names give in a node, each looked up in what the one before it gave.
#[tactic(auto, using(crate::proofs::Finding::behind_some, crate::proofs::Finding::behind_none))]
fn take_member_behind(node: MarkedNode, names: &List<Text>) -> Option<MarkedNode>
    ensures { result ≡ member_behind names.now node }
{
    let mut node = node;
    for name in names.as_slice() {
        node = take_member(node.value, name)?;
    }
    Some(node)
}

/// The property values of an object, in order.
fn property_values(alloc: Global, pairs: List<MarkedPair>) -> Result<List<MarkedNode>, Memory>
    ensures { IfOk result (λ values. values ≡ items_of (Value.Object pairs)) }
{
    let mut values = List::new(alloc);
    for pair in pairs.into_vec() {
        values.push(pair.item)?;
    }
    Ok(values)
}

/// What a projection goes through: the items of an array, or the property values of an object.
fn into_items(alloc: Global, of: Value) -> Result<List<MarkedNode>, Memory>
    ensures { IfOk result (λ items. items ≡ items_of of) }
{
    match of {
        Value::Array(items) => Ok(items),
        Value::Object(pairs) => property_values(alloc, pairs),
        _ => Ok(List::new(alloc)),
    }
}

/// What the names give in each item of a value. An item that lacks one of them is left out.
pub fn project(alloc: Global, of: Value, names: &List<Text>) -> Result<Value, Memory>
    ensures { IfOk result (λ value. value ≡ projected names.now of) }
{
    let items = into_items(alloc, of)?;
    let mut found = List::new(alloc);
    for item in items.into_vec() {
        if let Some(node) = take_member_behind(item, names) {
            found.push(node)?;
        }
    }
    Ok(Value::Array(found))
}
