ghost use Rattle.std.specs.Prelude.{◌≡◌, List, ℕ, Result, map, IfOk};
ghost use Rattle.pl_base.specs.declared.value.Value.{Str};
ghost use Rattle.pl_expr.specs.Conversions.{cast_text};
ghost use Rattle.pl_texts.specs.Gives as texts;
ghost use Rattle.pl_texts.specs.declared.fault.TextFault as faults;
ghost use Rattle.pl_eval.specs.LookUps.{made};
ghost use Rattle.pl_eval.specs.Texts.{text_value, texts_value, lower_of, upper_of, trim_of};
ghost use Rattle.pl_eval.specs.Texts.{replace_of, split_of, casts_of, join_of, format_of};
ghost use Rattle.pl_eval.specs.Gives.{Gives};

use crate::fault::EvalFault;
use crate::look_ups::make;
use pl_base::{List, MarkedNode, Memory, Origin, Text, Value};
use pl_expr::to_text;
use pl_texts::{TextFault, format, join, lower, replace, split, trim, upper};
use std::alloc::Global;

/// A text that a function made, as a value, or its fault.
fn text_value(made: Result<Text, TextFault>) -> Result<Value, EvalFault>
    ensures { (meant : Result (List ℕ) faults.TextFault) → texts.Gives made meant →
        Gives result (text_value meant) }
{
    match made {
        Ok(text) => Ok(Value::Str(text)),
        Err(fault) => Err(EvalFault::of_text(fault)),
    }
}

/// The value in lower case.
pub fn lower_value(alloc: Global, value: &Value) -> Result<Value, EvalFault>
    ensures { Gives result (lower_of value.now) }
{
    let text = to_text(alloc, value)?;
    text_value(lower(alloc, &text))
}

/// The value in upper case.
pub fn upper_value(alloc: Global, value: &Value) -> Result<Value, EvalFault>
    ensures { Gives result (upper_of value.now) }
{
    let text = to_text(alloc, value)?;
    text_value(upper(alloc, &text))
}

/// The value without white space at both ends.
pub fn trim_value(alloc: Global, value: &Value) -> Result<Value, EvalFault>
    ensures { Gives result (trim_of value.now) }
{
    let text = to_text(alloc, value)?;
    text_value(trim(alloc, &text))
}

/// The first value with the third in the place of each occurrence of the second.
pub fn replace_value(
    alloc: Global,
    text: &Value,
    sought: &Value,
    new: &Value,
) -> Result<Value, EvalFault>
    ensures { Gives result (replace_of text.now sought.now new.now) }
{
    let text = to_text(alloc, text)?;
    let sought = to_text(alloc, sought)?;
    let new = to_text(alloc, new)?;
    text_value(replace(alloc, &text, &sought, &new))
}

/// The pieces of a text, each as a value that is made here.
fn pieces_value(
    alloc: Global,
    pieces: List<Text>,
    here: &Origin,
) -> Result<List<MarkedNode>, Memory>
    ensures { IfOk result (λ nodes. nodes ≡ map (λ text. made here.now (Str text)) pieces) }
{
    let mut nodes = List::new(alloc);
    for piece in pieces.into_vec() {
        nodes.push(make(alloc, Value::Str(piece), here)?)?;
    }
    Ok(nodes)
}

/// The pieces of the first value between the characters of the second.
pub fn split_value(
    alloc: Global,
    text: &Value,
    separators: &Value,
    here: &Origin,
) -> Result<Value, EvalFault>
    ensures { Gives result (split_of here.now text.now separators.now) }
{
    let text = to_text(alloc, text)?;
    let separators = to_text(alloc, separators)?;
    match split(alloc, &text, &separators) {
        Ok(pieces) => Ok(Value::Array(pieces_value(alloc, pieces, here)?)),
        Err(fault) => Err(EvalFault::of_text(fault)),
    }
}

/// The casts to text of all items.
pub fn cast_items(alloc: Global, items: &[MarkedNode]) -> Result<List<Text>, Memory>
    ensures { IfOk result (λ texts. texts ≡ map (λ item. cast_text item.value) items.now) }
{
    let mut texts = List::new(alloc);
    for item in items {
        texts.push(to_text(alloc, &item.value)?)?;
    }
    Ok(texts)
}

/// The casts of an array's items. What isn't an array counts as its only item.
fn cast_each(alloc: Global, value: &Value) -> Result<List<Text>, Memory>
    ensures { IfOk result (λ texts. texts ≡ casts_of value.now) }
{
    match value {
        Value::Array(items) => cast_items(alloc, items.as_slice()),
        _ => {
            let mut texts = List::new(alloc);
            texts.push(to_text(alloc, value)?)?;
            Ok(texts)
        }
    }
}

/// The casts of the second value's items, with the first between each two.
pub fn join_value(alloc: Global, separator: &Value, value: &Value) -> Result<Value, EvalFault>
    ensures { Gives result (join_of separator.now value.now) }
{
    let separator = to_text(alloc, separator)?;
    let texts = cast_each(alloc, value)?;
    text_value(join(alloc, &separator, &texts))
}

/// The pattern with its holes filled.
pub fn format_value(
    alloc: Global,
    pattern: &Value,
    arguments: &List<Text>,
) -> Result<Value, EvalFault>
    ensures { Gives result (format_of pattern.now arguments.now) }
{
    let pattern = to_text(alloc, pattern)?;
    text_value(format(alloc, &pattern, arguments))
}
