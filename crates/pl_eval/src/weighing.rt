use crate::manner::{BinaryFunction, Operation};
use pl_base::{List, MarkedNode, MarkedPair, Text, Value};

/// How many bytes a node or a key counts beside its characters.
const NODE: u64 = 72;

/// How many bytes a value counts: 72 a node and a key, and the characters of its texts.
#[cycle(weighing)]
pub fn weight_of(value: &Value) -> u64 {
    match value {
        Value::Str(text) => NODE.saturating_add(text.len() as u64),
        Value::Array(items) => NODE.saturating_add(weight_of_items(items)),
        Value::Object(pairs) => NODE.saturating_add(weight_of_pairs(pairs)),
        _ => NODE,
    }
}

#[cycle(weighing)]
fn weight_of_items(items: &List<MarkedNode>) -> u64 {
    let mut all = 0u64;
    for item in items.as_slice() {
        all = all.saturating_add(weight_of(&item.value));
    }
    all
}

#[cycle(weighing)]
fn weight_of_pairs(pairs: &List<MarkedPair>) -> u64 {
    let mut all = 0u64;
    for pair in pairs.as_slice() {
        let key = NODE.saturating_add(pair.key.len() as u64);
        all = all.saturating_add(key);
        all = all.saturating_add(weight_of(&pair.item.value));
    }
    all
}

/// How many units of work a function is beside what its arguments and its value weigh: `split`,
/// `replace` and `format` do more for a character than to copy it.
pub(crate) fn work_of_applying(operation: Operation, arguments: &List<MarkedNode>) -> u64 {
    match operation {
        Operation::Two(BinaryFunction::Split) | Operation::Replace | Operation::Format => {
            weight_of_items(arguments).saturating_mul(8)
        }
        _ => 0,
    }
}

/// How many units of work it is to compare a name with so many others: 2 each, and 1 for each three of
/// its bytes.
pub fn work_of_comparing(name: &Text, others: usize) -> u64 {
    let bytes = name.len() as u64;
    (bytes / 3).saturating_add(2).saturating_mul(others as u64)
}

/// How many units of work it is to make, copy or go over what weighs so much.
pub fn work_of(weight: u64) -> u64 {
    weight / 2
}
