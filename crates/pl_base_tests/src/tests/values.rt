use super::copies::origin;
use pl_base::{ExactCopy, List, MarkedNode, MarkedPair, Memory, Origin, Place, Text, Value};
use std::alloc::Global;
use std::mem::size_of;
use std::test::Fail;

fn marked(alloc: Global, value: Value) -> Result<MarkedNode, Memory> {
    let origin = origin(alloc, 1)?;
    Ok(MarkedNode { origin, value })
}

/// An array of this value alone.
fn array_of(alloc: Global, node: MarkedNode) -> Result<MarkedNode, Memory> {
    let mut items = List::new(alloc);
    items.push(node)?;
    marked(alloc, Value::Array(items))
}

/// So many arrays, one in the other, around this value.
fn nested(alloc: Global, node: MarkedNode, levels: u32) -> Result<MarkedNode, Memory> {
    let mut node = node;
    for _ in 0..levels {
        node = array_of(alloc, node)?;
    }
    Ok(node)
}

fn is_copied(alloc: Global, node: &MarkedNode) -> bool {
    node.copy(alloc).is_ok()
}

/// Whether a value can be copied that has so many levels in all.
fn is_copied_in(alloc: Global, levels: u32) -> Result<bool, Memory> {
    let node = nested(alloc, marked(alloc, Value::Null)?, levels.saturating_sub(1))?;
    Ok(is_copied(alloc, &node))
}

#[test]
fn copies_go_a_thousand_levels_deep(rt: HostRuntime) -> Result<(), Fail> {
    assert!(rt; is_copied_in(rt.alloc(), 1_000)?);
    assert!(rt; !is_copied_in(rt.alloc(), 1_001)?);
    Ok(())
}

fn push(alloc: Global, items: &mut List<MarkedNode>, value: Value) -> Result<(), Memory> {
    items.push(marked(alloc, value)?)
}

fn version(alloc: Global) -> Result<Value, Memory> {
    Ok(Value::Version(List::from_slice(alloc, [1, 2, 3].as_slice())?))
}

fn text(alloc: Global) -> Result<Value, Memory> {
    Ok(Value::Str(Text::from_str(alloc, "text")?))
}

/// A value of each kind that has no parts.
fn all_kinds(alloc: Global) -> Result<List<MarkedNode>, Memory> {
    let mut items = List::new(alloc);
    push(alloc, &mut items, Value::Null)?;
    push(alloc, &mut items, Value::Bool(true))?;
    push(alloc, &mut items, Value::Number(-7))?;
    push(alloc, &mut items, version(alloc)?)?;
    push(alloc, &mut items, text(alloc)?)?;
    Ok(items)
}

fn pair_of(alloc: Global, item: MarkedNode) -> Result<MarkedPair, Memory> {
    let key = Text::from_str(alloc, "all")?;
    let key_origin = origin(alloc, 6)?;
    Ok(MarkedPair {
        key,
        key_origin,
        item,
    })
}

/// An object whose one property has a value of each kind.
fn object(alloc: Global) -> Result<MarkedNode, Memory> {
    let array = marked(alloc, Value::Array(all_kinds(alloc)?))?;
    let mut pairs = List::new(alloc);
    pairs.push(pair_of(alloc, array)?)?;
    marked(alloc, Value::Object(pairs))
}

#[test]
fn values_of_each_kind_are_copied(rt: HostRuntime) -> Result<(), Fail> {
    let node = object(rt.alloc())?;
    assert!(rt; is_copied(rt.alloc(), &node));
    Ok(())
}

/// What a node of a template costs, beside its text and its items: the places of a file share its
/// key, and crossings that begin alike share these.
#[test]
fn a_marked_node_takes_64_bytes(rt: HostRuntime) -> Result<(), Fail> {
    assert!(rt; size_of::<Place>() == 16);
    assert!(rt; size_of::<Origin>() == 24);
    assert!(rt; size_of::<MarkedNode>() == 64);
    Ok(())
}
