ghost use Rattle.std.specs.Prelude.{◌≡◌, IfOk};
ghost use Rattle.std.specs.List.{list_any};
ghost use Rattle.pl_expr.specs.Conversions.{cast_text, equals};
ghost use Rattle.pl_eval.specs.Applied.{length_of, holds_value, ordered, of_one, of_two};
ghost use Rattle.pl_eval.specs.Gives.{Gives};

use crate::fault::{EvalCode, EvalFault};
use crate::manner::{BinaryFunction, UnaryFunction};
use crate::texts::{join_value, lower_value, split_value, trim_value, upper_value};
use pl_base::{List, MarkedNode, MarkedPair, Memory, Origin, Text, Value};
use pl_expr::{loosely_equal, order, to_bool, to_text};
use pl_texts::{contains, count, ends_with, starts_with};
use std::alloc::Global;
use std::cmp::Ordering;

/// How many scalar values a text has, or items an array. NoLength comes for anything else.
fn length_value(value: &Value) -> Result<Value, EvalFault>
    ensures { Gives result (length_of value.now) }
{
    let count = match value {
        Value::Str(text) => count(text),
        Value::Array(items) => items.len(),
        _ => return Err(EvalFault::Refused(EvalCode::NoLength)),
    };
    match i64::try_from(count) {
        Ok(number) => Ok(Value::Number(number)),
        Err(_) => Err(EvalFault::Memory),
    }
}

/// A function of one argument.
pub fn apply_one(alloc: Global, function: UnaryFunction, value: &Value) -> Result<Value, EvalFault>
    ensures { Gives result (of_one function value.now) }
{
    match function {
        UnaryFunction::Not => Ok(Value::Bool(!to_bool(value))),
        UnaryFunction::Length => length_value(value),
        UnaryFunction::Lower => lower_value(alloc, value),
        UnaryFunction::Upper => upper_value(alloc, value),
        UnaryFunction::Trim => trim_value(alloc, value),
    }
}

/// The order of two values. NotConvertible comes where they have none.
fn compare(alloc: Global, left: &Value, right: &Value) -> Result<Ordering, EvalFault>
    ensures { Gives result (ordered left.now right.now) }
{
    match order(alloc, left, right)? {
        Some(order) => Ok(order),
        None => Err(EvalFault::Refused(EvalCode::NotConvertible)),
    }
}

#[tactic(auto, using(pl_base::proofs::Finding::any_drop_yes, pl_base::proofs::Finding::any_drop_no))]
fn is_an_item(alloc: Global, items: &List<MarkedNode>, sought: &Value) -> Result<bool, Memory>
    ensures { IfOk result (λ is. is ≡ list_any (λ item. equals sought.now item.value) items.now) }
{
    for item in items.as_slice() {
        if loosely_equal(alloc, sought, &item.value)? {
            return Ok(true);
        }
    }
    Ok(false)
}

#[tactic(auto, using(pl_base::proofs::Finding::any_drop_yes, pl_base::proofs::Finding::any_drop_no))]
fn is_a_property(alloc: Global, pairs: &List<MarkedPair>, sought: &Value) -> Result<bool, Memory>
    ensures { IfOk result (λ is. is ≡ list_any (λ pair. equals sought.now pair.item.value)
        pairs.now) }
{
    for pair in pairs.as_slice() {
        if loosely_equal(alloc, sought, &pair.item.value)? {
            return Ok(true);
        }
    }
    Ok(false)
}

fn contains_value(alloc: Global, of: &Value, sought: &Value) -> Result<bool, Memory>
    ensures { IfOk result (λ holds. holds ≡ holds_value of.now sought.now) }
{
    match of {
        Value::Array(items) => is_an_item(alloc, items, sought),
        Value::Object(pairs) => is_a_property(alloc, pairs, sought),
        _ => Ok(false),
    }
}

/// Both values cast to text.
fn cast_both(alloc: Global, left: &Value, right: &Value) -> Result<(Text, Text), Memory>
    ensures { IfOk result (λ texts. (texts.0 ≡ cast_text left.now) ×
        (texts.1 ≡ cast_text right.now)) }
{
    let left = to_text(alloc, left)?;
    let right = to_text(alloc, right)?;
    Ok((left, right))
}

/// A function of two arguments.
pub fn apply_two(
    alloc: Global,
    function: BinaryFunction,
    left: &Value,
    right: &Value,
    here: &Origin,
) -> Result<Value, EvalFault>
    ensures { Gives result (of_two here.now function left.now right.now) }
{
    match function {
        BinaryFunction::Xor => Ok(Value::Bool(to_bool(left) != to_bool(right))),
        BinaryFunction::Eq => Ok(Value::Bool(loosely_equal(alloc, left, right)?)),
        BinaryFunction::Ne => Ok(Value::Bool(!loosely_equal(alloc, left, right)?)),
        BinaryFunction::Lt => Ok(Value::Bool(compare(alloc, left, right)?.is_lt())),
        BinaryFunction::Le => Ok(Value::Bool(compare(alloc, left, right)?.is_le())),
        BinaryFunction::Gt => Ok(Value::Bool(compare(alloc, left, right)?.is_gt())),
        BinaryFunction::Ge => Ok(Value::Bool(compare(alloc, left, right)?.is_ge())),
        BinaryFunction::Contains => {
            let (text, sought) = cast_both(alloc, left, right)?;
            Ok(Value::Bool(contains(alloc, &text, &sought)?))
        }
        BinaryFunction::StartsWith => {
            let (text, sought) = cast_both(alloc, left, right)?;
            Ok(Value::Bool(starts_with(&text, &sought)))
        }
        BinaryFunction::EndsWith => {
            let (text, sought) = cast_both(alloc, left, right)?;
            Ok(Value::Bool(ends_with(&text, &sought)))
        }
        BinaryFunction::ContainsValue => Ok(Value::Bool(contains_value(alloc, left, right)?)),
        BinaryFunction::Join => join_value(alloc, left, right),
        BinaryFunction::Split => split_value(alloc, left, right, here),
    }
}
