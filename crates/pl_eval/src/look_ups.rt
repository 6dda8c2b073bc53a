ghost use Rattle.std.specs.Prelude.{◌≡◌, ◌<◌, IfOk, find, length, slice_get, MatchOption};
ghost use Rattle.std.specs.Option.{option_copied};
ghost use Rattle.pl_eval.specs.Known.{same_name};
ghost use Rattle.pl_eval.specs.LookUps.{made, property, item_at, found, looked_up, member};
ghost use Rattle.pl_eval.specs.LookUps.{member_behind};

use pl_base::{
    ExactCopy, List, MarkedNode, MarkedPair, Memory, Origin, Text, Value, equals_ignoring_case,
};
use pl_expr::{to_number, to_text};
use std::alloc::Global;

/// A value that the expression makes, with the origin of made values.
pub fn make(alloc: Global, value: Value, here: &Origin) -> Result<MarkedNode, Memory>
    ensures { IfOk result (λ node. node ≡ made here.now value) }
{
    let origin = here.copy(alloc)?;
    Ok(MarkedNode { origin, value })
}

/// Whether a key is that name, the case of letters aside.
pub fn is_named(key: &Text, name: &Text) -> bool
    ensures { result ≡ same_name name.now key.now }
{
    equals_ignoring_case(key, name)
}

/// Where the first property of that name stands, the case of letters aside.
#[tactic(auto, using(pl_base::proofs::Finding::find_drop_yes, pl_base::proofs::Finding::find_drop_no))]
pub fn place_of(pairs: &List<MarkedPair>, name: &Text) -> Option<usize>
    ensures { MatchOption result (find (λ pair. same_name name.now pair.key) pairs.now ≡ None)
        (λ place. (place < length pairs.now) ×
        (find (λ pair. same_name name.now pair.key) pairs.now ≡ slice_get pairs.now place)) }
{
    for (index, pair) in pairs.as_slice().iter().enumerate() {
        if is_named(&pair.key, name) {
            return Some(index);
        }
    }
    None
}

/// Takes the first property of that name out of an object, the case of letters aside.
pub fn take_property(pairs: List<MarkedPair>, name: &Text) -> Option<MarkedNode>
    ensures { result ≡ property pairs name.now }
{
    let place = place_of(&pairs, name)?;
    let mut pairs = pairs.into_vec();
    let pair = pairs.swap_remove(place);
    Some(pair.item)
}

/// The item at a place from 0 of an array.
fn item_of(items: &List<MarkedNode>, at: i64) -> Option<&MarkedNode>
    ensures { option_copied result ≡ item_at items.now at }
{
    let Ok(place) = usize::try_from(at) else {
        return None;
    };
    items.get(place)
}

/// The first property of that name, the case of letters aside.
fn property_of<'p>(pairs: &'p List<MarkedPair>, name: &Text) -> Option<&'p MarkedNode>
    ensures { option_copied result ≡ property pairs.now name.now }
{
    let place = place_of(pairs, name)?;
    let pair = pairs.get(place)?;
    Some(&pair.item)
}

/// What an index finds in a value (Microsoft Learn, Azure Pipelines, "Expressions", References): in
/// an array the item at the number that the index converts to, from 0; in an object the first
/// property of the name that it converts to, the case of letters aside; None in anything else, or
/// where the index doesn't convert.
pub fn find_member<'v>(
    alloc: Global,
    of: &'v Value,
    at: &Value,
) -> Result<Option<&'v MarkedNode>, Memory>
    ensures { IfOk result (λ node. option_copied node ≡ found of.now at.now) }
{
    match of {
        Value::Array(items) => match to_number(at) {
            Some(number) => Ok(item_of(items, number)),
            None => Ok(None),
        },
        Value::Object(pairs) => match at {
            Value::Array(_) | Value::Object(_) => Ok(None),
            _ => {
                let name = to_text(alloc, at)?;
                Ok(property_of(pairs, &name))
            }
        },
        _ => Ok(None),
    }
}

/// Takes the item at a place from 0 out of an array.
fn take_item(items: List<MarkedNode>, at: i64) -> Option<MarkedNode>
    ensures { result ≡ item_at items at }
{
    let Ok(place) = usize::try_from(at) else {
        return None;
    };
    if place >= items.len() {
        return None;
    }
    let mut items = items.into_vec();
    Some(items.swap_remove(place))
}

/// Takes what an index finds out of a value.
fn take_found(alloc: Global, of: Value, at: &Value) -> Result<Option<MarkedNode>, Memory>
    ensures { IfOk result (λ node. node ≡ found of at.now) }
{
    match of {
        Value::Array(items) => match to_number(at) {
            Some(number) => Ok(take_item(items, number)),
            None => Ok(None),
        },
        Value::Object(pairs) => match at {
            Value::Array(_) | Value::Object(_) => Ok(None),
            _ => {
                let name = to_text(alloc, at)?;
                Ok(take_property(pairs, &name))
            }
        },
        _ => Ok(None),
    }
}

/// What an index finds in a value, or a Null that is made where it finds nothing.
pub fn look_up(alloc: Global, of: Value, at: &Value, here: &Origin) -> Result<MarkedNode, Memory>
    ensures { IfOk result (λ node. node ≡ looked_up here.now of at.now) }
{
    match take_found(alloc, of, at)? {
        Some(node) => Ok(node),
        None => make(alloc, Value::Null, here),
    }
}
