ghost use Rattle.std.specs.Prelude.{◌≡◌, map, IfOk};
ghost use Rattle.pl_frame.specs.Bindings.{crossed};
ghost use Rattle.pl_frame.specs.Origins.{across};
ghost use Rattle.pl_frame.specs.Trees.{moved, all_moved};
ghost use Rattle.pl_frame.specs.Moves.{move_by, moved_by, all_moved_by, pair_moved_by};

use pl_base::{
    Crossing, DEEPEST, ExactCopy, List, MarkedNode, MarkedPair, Memory, Origin, SharedList, Value,
};
use std::alloc::Global;

/// Another origin for each origin of a tree.
#[derive(Drop)]
enum Move {
    /// The same with one crossing more.
    Across(Crossing),
    /// The same source, across these borders.
    Reached(SharedList<Crossing>),
    /// That origin.
    To(Origin),
}

/// A tree whose nodes and keys have one crossing more. Memory comes too where the tree is deeper
/// than `DEEPEST`.
pub fn cross(alloc: Global, node: &MarkedNode, crossing: &Crossing) -> Result<MarkedNode, Memory>
    ensures { IfOk result (λ moved_node. moved_node ≡ moved (across crossing.now) node.now) }
{
    let by = Move::Across(crossing.copy(alloc)?);
    node_by(alloc, node, &by, DEEPEST)
}

/// A tree whose nodes and keys have the same sources across these borders. Memory comes too where
/// the tree is deeper than `DEEPEST`.
pub fn reach(
    alloc: Global,
    node: &MarkedNode,
    crossings: &SharedList<Crossing>,
) -> Result<MarkedNode, Memory>
    ensures { IfOk result (λ moved_node. moved_node ≡ moved (crossed crossings.now) node.now) }
{
    let by = Move::Reached(crossings.copy(alloc)?);
    node_by(alloc, node, &by, DEEPEST)
}

/// A value whose nodes and keys all have that origin. Memory comes too where the value is deeper
/// than `DEEPEST`.
pub fn move_to(alloc: Global, value: &Value, here: &Origin) -> Result<Value, Memory>
    ensures { IfOk result (λ moved_value. moved_value ≡ all_moved (λ _. here.now) value.now) }
{
    let by = Move::To(here.copy(alloc)?);
    value_by(alloc, value, &by, DEEPEST)
}

/// A tree whose nodes and keys all have that origin. Memory comes too where the tree is deeper than
/// `DEEPEST`.
pub fn move_node_to(alloc: Global, node: &MarkedNode, here: &Origin) -> Result<MarkedNode, Memory>
    ensures { IfOk result (λ moved_node. moved_node ≡ moved (λ _. here.now) node.now) }
{
    let by = Move::To(here.copy(alloc)?);
    node_by(alloc, node, &by, DEEPEST)
}

/// Another origin in the place of one.
fn move_origin(alloc: Global, origin: &Origin, by: &Move) -> Result<Origin, Memory>
    ensures { IfOk result (λ other. other ≡ move_by by.now origin.now) }
{
    match by {
        Move::Across(crossing) => {
            let source = origin.source.copy(alloc)?;
            let crossings = origin.crossings.with(alloc, crossing.copy(alloc)?)?;
            Ok(Origin { source, crossings })
        }
        Move::Reached(crossings) => {
            let source = origin.source.copy(alloc)?;
            let crossings = crossings.copy(alloc)?;
            Ok(Origin { source, crossings })
        }
        Move::To(other) => other.copy(alloc),
    }
}

#[cycle(moving)]
fn node_by(alloc: Global, node: &MarkedNode, by: &Move, levels: u32) -> Result<MarkedNode, Memory>
    ensures { IfOk result (λ node_by. node_by ≡ moved_by by.now node.now) }
{
    let origin = move_origin(alloc, &node.origin, by)?;
    let below = levels.checked_sub(1).ok_or(Memory)?;
    let value = value_by(alloc, &node.value, by, below)?;
    Ok(MarkedNode { origin, value })
}

#[cycle(moving)]
fn value_by(alloc: Global, value: &Value, by: &Move, levels: u32) -> Result<Value, Memory>
    ensures { IfOk result (λ value_by. value_by ≡ all_moved_by by.now value.now) }
{
    match value {
        Value::Null => Ok(Value::Null),
        Value::Bool(truth) => Ok(Value::Bool(*truth)),
        Value::Number(number) => Ok(Value::Number(*number)),
        Value::Version(segments) => Ok(Value::Version(segments.copy(alloc)?)),
        Value::Str(text) => Ok(Value::Str(text.copy(alloc)?)),
        Value::Array(items) => Ok(Value::Array(items_by(alloc, items, by, levels)?)),
        Value::Object(pairs) => Ok(Value::Object(pairs_by(alloc, pairs, by, levels)?)),
    }
}

#[cycle(moving)]
fn items_by(
    alloc: Global,
    items: &List<MarkedNode>,
    by: &Move,
    levels: u32,
) -> Result<List<MarkedNode>, Memory>
    ensures { IfOk result (λ all. all ≡ map (moved_by by.now) items.now) }
{
    let mut all = List::new(alloc);
    for item in items.as_slice() {
        all.push(node_by(alloc, item, by, levels)?)?;
    }
    Ok(all)
}

#[cycle(moving)]
fn pairs_by(
    alloc: Global,
    pairs: &List<MarkedPair>,
    by: &Move,
    levels: u32,
) -> Result<List<MarkedPair>, Memory>
    ensures { IfOk result (λ all. all ≡ map (pair_moved_by by.now) pairs.now) }
{
    let mut all = List::new(alloc);
    for pair in pairs.as_slice() {
        all.push(pair_by(alloc, pair, by, levels)?)?;
    }
    Ok(all)
}

#[cycle(moving)]
fn pair_by(alloc: Global, pair: &MarkedPair, by: &Move, levels: u32) -> Result<MarkedPair, Memory>
    ensures { IfOk result (λ pair_by. pair_by ≡ pair_moved_by by.now pair.now) }
{
    let key = pair.key.copy(alloc)?;
    let key_origin = move_origin(alloc, &pair.key_origin, by)?;
    let item = node_by(alloc, &pair.item, by, levels)?;
    Ok(MarkedPair {
        key,
        key_origin,
        item,
    })
}
