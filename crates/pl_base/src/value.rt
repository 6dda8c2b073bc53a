ghost use Rattle.std.specs.Prelude.{◌≡◌, IfOk};

use crate::exact_copy::ExactCopy;
use crate::list::List;
use crate::memory::Memory;
use crate::origin::Origin;
use crate::text::Text;
use std::alloc::Global;

/// How many nodes may stand in one another in a value. Stack is memory too: a copy that would go
/// deeper is answered with Memory, and whoever puts values into one another keeps to this bound, so
/// that each value can be copied, compared, printed and dropped.
pub const DEEPEST: u32 = 1_000;

/// A value of the expression language (Microsoft Learn, Azure Pipelines, "Expressions", Types).
#[cycle(value)]
#[derive(Debug, Drop)]
pub enum Value {
    Null,
    Bool(bool),
    Number(i64),
    /// A version's segments, the major one first.
    Version(List<u32>),
    Str(Text),
    Array(List<MarkedNode>),
    Object(List<MarkedPair>),
}

/// A value and where it comes from.
#[cycle(value)]
#[derive(Debug, Drop)]
pub struct MarkedNode {
    pub origin: Origin,
    pub value: Value,
}

/// A property of an object: its key, where the key comes from, and its value.
#[cycle(value)]
#[derive(Debug, Drop)]
pub struct MarkedPair {
    pub key: Text,
    pub key_origin: Origin,
    pub item: MarkedNode,
}

#[cycle(copied_value)]
fn copy_value(value: &Value, alloc: Global, levels: u32) -> Result<Value, Memory>
    ensures { IfOk result (λ copy. copy ≡ value.now) }
{
    match value {
        Value::Null => Ok(Value::Null),
        Value::Bool(truth) => Ok(Value::Bool(*truth)),
        Value::Number(number) => Ok(Value::Number(*number)),
        Value::Version(segments) => Ok(Value::Version(segments.copy(alloc)?)),
        Value::Str(text) => Ok(Value::Str(text.copy(alloc)?)),
        Value::Array(items) => Ok(Value::Array(copy_items(items, alloc, levels)?)),
        Value::Object(pairs) => Ok(Value::Object(copy_pairs(pairs, alloc, levels)?)),
    }
}

#[cycle(copied_value)]
fn copy_marked(node: &MarkedNode, alloc: Global, levels: u32) -> Result<MarkedNode, Memory>
    ensures { IfOk result (λ copy. copy ≡ node.now) }
{
    let origin = node.origin.copy(alloc)?;
    let below = levels.checked_sub(1).ok_or(Memory)?;
    let value = copy_value(&node.value, alloc, below)?;
    Ok(MarkedNode { origin, value })
}

#[cycle(copied_value)]
fn copy_items(
    items: &List<MarkedNode>,
    alloc: Global,
    levels: u32,
) -> Result<List<MarkedNode>, Memory>
    ensures { IfOk result (λ copy. copy ≡ items.now) }
{
    let mut copies = List::new(alloc);
    for item in items.as_slice() {
        copies.push(copy_marked(item, alloc, levels)?)?;
    }
    Ok(copies)
}

#[cycle(copied_value)]
fn copy_pairs(
    pairs: &List<MarkedPair>,
    alloc: Global,
    levels: u32,
) -> Result<List<MarkedPair>, Memory>
    ensures { IfOk result (λ copy. copy ≡ pairs.now) }
{
    let mut copies = List::new(alloc);
    for pair in pairs.as_slice() {
        copies.push(copy_pair(pair, alloc, levels)?)?;
    }
    Ok(copies)
}

#[cycle(copied_value)]
fn copy_pair(pair: &MarkedPair, alloc: Global, levels: u32) -> Result<MarkedPair, Memory>
    ensures { IfOk result (λ copy. copy ≡ pair.now) }
{
    let key = pair.key.copy(alloc)?;
    let key_origin = pair.key_origin.copy(alloc)?;
    let item = copy_marked(&pair.item, alloc, levels)?;
    Ok(MarkedPair {
        key,
        key_origin,
        item,
    })
}

impl ExactCopy for Value {
    fn copy(&self, alloc: Global) -> Result<Value, Memory> {
        copy_value(self, alloc, DEEPEST)
    }
}

impl ExactCopy for MarkedNode {
    fn copy(&self, alloc: Global) -> Result<MarkedNode, Memory> {
        copy_marked(self, alloc, DEEPEST)
    }
}

impl ExactCopy for MarkedPair {
    fn copy(&self, alloc: Global) -> Result<MarkedPair, Memory> {
        copy_pair(self, alloc, DEEPEST)
    }
}
