ghost use Rattle.std.specs.Prelude.{◌≡◌, drop, map, IfOk};
ghost use Rattle.pl_base.specs.declared.value.Value.{Null};
ghost use Rattle.pl_expr.specs.Conversions.{cast_text};
ghost use Rattle.pl_eval.specs.Applied.{applied, value_at};
ghost use Rattle.pl_eval.specs.Gives.{Gives};

use crate::applied::{apply_one, apply_two};
use crate::fault::EvalFault;
use crate::manner::Operation;
use crate::texts::{cast_items, format_value, replace_value};
use pl_base::{List, MarkedNode, Memory, Origin, Text, Value};
use std::alloc::Global;

/// The value at a place from 0, or this Null where there is none.
fn value_at<'n>(nodes: &'n List<MarkedNode>, at: usize, null: &'n Value) -> &'n Value
    requires { null.now ≡ Null }
    ensures { result.now ≡ value_at nodes.now at }
{
    match nodes.get(at) {
        Some(node) => &node.value,
        None => null,
    }
}

/// The casts to text of all values but the first.
fn cast_others(alloc: Global, nodes: &List<MarkedNode>) -> Result<List<Text>, Memory>
    ensures { IfOk result (λ texts. texts ≡ map (λ node. cast_text node.value) (drop 1 nodes.now)) }
{
    match nodes.as_slice().split_first() {
        Some((_, others)) => cast_items(alloc, others),
        None => Ok(List::new(alloc)),
    }
}

/// What a call makes of the values of all its arguments. A missing one counts as Null.
pub fn apply(
    alloc: Global,
    operation: Operation,
    nodes: &List<MarkedNode>,
    here: &Origin,
) -> Result<Value, EvalFault>
    ensures { Gives result (applied here.now operation nodes.now) }
{
    let null = Value::Null;
    let first = value_at(nodes, 0, &null);
    match operation {
        Operation::One(function) => apply_one(alloc, function, first),
        Operation::Two(function) => {
            apply_two(alloc, function, first, value_at(nodes, 1, &null), here)
        }
        Operation::Replace => {
            let sought = value_at(nodes, 1, &null);
            let new = value_at(nodes, 2, &null);
            replace_value(alloc, first, sought, new)
        }
        Operation::Format => {
            let texts = cast_others(alloc, nodes)?;
            format_value(alloc, first, &texts)
        }
    }
}
