ghost use Rattle.std.specs.Prelude.{◌≡◌, ◌∷◌, ◌++◌, if◌then◌else◌, OnOk, map, nat_eq, IfOk};
ghost use Rattle.std.specs.Prelude.{option_map, decimal};
ghost use Rattle.std.specs.Ordering.{nat_cmp};
ghost use Rattle.std.specs.Cmp.Lexicographic.{slice_cmp, pointwise};
ghost use Rattle.std.specs.Fmt.{signed_decimal};
ghost use Rattle.std.specs.List.{join_with_byte};
ghost use Rattle.pl_base.specs.declared.value.Value.{Version};
ghost use Rattle.pl_expr.specs.Conversions.{bool_of, number_of_value, text_of, cast_text};
ghost use Rattle.pl_expr.specs.Conversions.{version_of, is_null, order_of, equals};
ghost use Rattle.pl_base.specs.Folding.{folded};

use crate::numerals::{read_number, read_version};
use pl_base::{ExactCopy, List, Memory, Text, Value};
use std::alloc::Global;
use std::cmp::Ordering;

/// Whether a value counts as true: all do but Null, False, 0 and the empty text.
pub fn to_bool(value: &Value) -> bool
    ensures { result ≡ bool_of value.now }
{
    match value {
        Value::Null | Value::Number(0) => false,
        Value::Bool(truth) => *truth,
        Value::Str(text) => !text.is_empty(),
        Value::Number(_) | Value::Version(_) | Value::Array(_) | Value::Object(_) => true,
    }
}

/// The number that a value converts to: Null, False and the empty text are 0, True is 1, and a text
/// is read as blanks, an optional sign, digits and blanks, within 64 signed bits. None where it
/// doesn't convert.
pub fn to_number(value: &Value) -> Option<i64>
    ensures { result ≡ number_of_value value.now }
{
    match value {
        Value::Null => Some(0),
        Value::Bool(truth) => Some(i64::from(*truth)),
        Value::Number(number) => Some(*number),
        Value::Str(text) => read_number(text.as_str()),
        Value::Version(_) | Value::Array(_) | Value::Object(_) => None,
    }
}

/// The text that a value converts to, or None for an array or object.
pub fn convert_to_text(alloc: Global, value: &Value) -> Result<Option<Text>, Memory>
    ensures { IfOk result (λ text. text ≡ text_of value.now) }
{
    match value {
        Value::Null => Ok(Some(Text::new(alloc))),
        Value::Bool(false) => Ok(Some(Text::from_str(alloc, "False")?)),
        Value::Bool(true) => Ok(Some(Text::from_str(alloc, "True")?)),
        Value::Number(number) => Ok(Some(number_text(alloc, *number)?)),
        Value::Version(segments) => Ok(Some(version_text(alloc, segments)?)),
        Value::Str(text) => Ok(Some(text.copy(alloc)?)),
        Value::Array(_) | Value::Object(_) => Ok(None),
    }
}

/// A value cast to text: `True`, `False`, a number's digits behind its minus, a version's segments
/// joined by dots, a text itself, and the empty text for the rest.
pub fn to_text(alloc: Global, value: &Value) -> Result<Text, Memory>
    ensures { IfOk result (λ text. text ≡ cast_text value.now) }
{
    match convert_to_text(alloc, value)? {
        Some(text) => Ok(text),
        None => Ok(Text::new(alloc)),
    }
}

fn number_text(alloc: Global, number: i64) -> Result<Text, Memory>
    ensures { IfOk result (λ text. text ≡ signed_decimal number) }
{
    let digits = number.to_string(alloc)?;
    Text::from_str(alloc, digits.as_str())
}

#[tactic(auto, using(crate::proofs::Folding::join_with_byte_take))]
fn version_text(alloc: Global, segments: &List<u32>) -> Result<Text, Memory>
    ensures { IfOk result (λ text. text ≡ join_with_byte 46 (map decimal segments.now)) }
{
    let mut text = Text::new(alloc);
    for (index, segment) in segments.as_slice().iter().enumerate() {
        push_segment(alloc, &mut text, index == 0, *segment)?;
    }
    Ok(text)
}

fn push_segment(alloc: Global, text: &mut Text, first: bool, segment: u32) -> Result<(), Memory>
    ensures { OnOk result (text.new ≡ text.old ++ (if first then decimal segment
        else 46 ∷ decimal segment)) }
{
    if !first {
        text.push_str(".")?;
    }
    let digits = segment.to_string(alloc)?;
    text.push_str(digits.as_str())?;
    Ok(())
}

/// The segments that a value converts to: those of a version, or of a text of two to four numbers
/// of at most 2147483647, joined by dots. None where it doesn't convert.
fn convert_to_version(alloc: Global, value: &Value) -> Result<Option<List<u32>>, Memory>
    ensures { IfOk result (λ version. version ≡ version_of value.now) }
{
    match value {
        Value::Version(segments) => Ok(Some(segments.copy(alloc)?)),
        Value::Str(text) => read_version(alloc, text.as_str()),
        Value::Null | Value::Bool(_) | Value::Number(_) | Value::Array(_) | Value::Object(_) => Ok(
            None,
        ),
    }
}

/// The version that a value converts to: a version is itself, and a text of two to four numbers of
/// at most 2147483647, joined by dots, is the version of these segments. None where it doesn't
/// convert.
pub fn to_version(alloc: Global, value: &Value) -> Result<Option<Value>, Memory>
    ensures { IfOk result (λ version. version ≡ option_map Version (version_of value.now)) }
{
    match convert_to_version(alloc, value)? {
        Some(segments) => Ok(Some(Value::Version(segments))),
        None => Ok(None),
    }
}

/// The order of two texts, ASCII letters in upper case.
#[tactic(auto, using(crate::proofs::Folding::slice_cmp_folded_drop, crate::proofs::Folding::slice_cmp_folded_end, crate::proofs::Folding::slice_cmp_folded_longer))]
fn compare_folded(left: &[u8], right: &[u8]) -> Ordering
    ensures { result ≡ slice_cmp nat_cmp (folded left.now) (folded right.now) }
{
    for (index, byte) in left.iter().enumerate() {
        if index >= right.len() {
            return Ordering::Greater;
        }
        let order = byte
            .to_ascii_uppercase()
            .cmp(&right[index].to_ascii_uppercase());
        if order != Ordering::Equal {
            return order;
        }
    }
    left.len().cmp(&right.len())
}

/// Whether two texts are the same, the case of ASCII letters aside.
#[tactic(auto, using(crate::proofs::Folding::same_by_cmp))]
pub fn same_folded(left: &str, right: &str) -> bool
    ensures { result ≡ pointwise nat_eq (folded left.now) (folded right.now) }
{
    compare_folded(left.as_bytes(), right.as_bytes()) == Ordering::Equal
}

/// How the left value stands to the right one, which is converted to the left one's type: False
/// comes before True, Null is equal to Null, versions compare by segments with a missing one first,
/// and texts without case. None where the right value doesn't convert, or the left one is an array
/// or object.
pub fn order(alloc: Global, left: &Value, right: &Value) -> Result<Option<Ordering>, Memory>
    ensures { IfOk result (λ order. order ≡ order_of left.now right.now) }
{
    match left {
        Value::Null => match right {
            Value::Null => Ok(Some(Ordering::Equal)),
            Value::Str(text) if text.is_empty() => Ok(Some(Ordering::Equal)),
            _ => Ok(None),
        },
        Value::Bool(left) => Ok(Some(left.cmp(&to_bool(right)))),
        Value::Number(left) => match to_number(right) {
            Some(right) => Ok(Some(left.cmp(&right))),
            None => Ok(None),
        },
        Value::Version(left) => match convert_to_version(alloc, right)? {
            Some(right) => Ok(Some(left.as_slice().cmp(right.as_slice()))),
            None => Ok(None),
        },
        Value::Str(left) => match convert_to_text(alloc, right)? {
            Some(right) => Ok(Some(compare_folded(left.as_bytes(), right.as_bytes()))),
            None => Ok(None),
        },
        Value::Array(_) | Value::Object(_) => Ok(None),
    }
}

/// Whether the right value, converted to the left one's type, is equal to the left one. Texts are
/// compared without case. It is False where the right value doesn't convert, and where the left one
/// is an array or object.
#[tactic(auto, using(crate::proofs::Folding::equals_by_order))]
pub fn loosely_equal(alloc: Global, left: &Value, right: &Value) -> Result<bool, Memory>
    ensures { IfOk result (λ equal. equal ≡ equals left.now right.now) }
{
    match order(alloc, left, right)? {
        Some(Ordering::Equal) => Ok(true),
        _ => Ok(false),
    }
}
