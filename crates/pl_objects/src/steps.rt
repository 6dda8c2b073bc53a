ghost use Rattle.std.specs.Prelude.{◌≡◌, map, IfOk};
ghost use Rattle.pl_base.specs.declared.value.Value.{out-Value};
ghost use Rattle.pl_json.specs.declared.json.Json.TheVariants as json;
ghost use Rattle.pl_json.specs.Objects.{object};
ghost use Rattle.pl_objects.specs.Steps.{first_key, key_in, node_json, pair_member, step_object};
ghost use Rattle.pl_objects.specs.Steps.{value_json};

use crate::origins::origin_object;
use pl_base::{DEEPEST, ExactCopy, List, MarkedNode, MarkedPair, Memory, Value};
use pl_expr::to_text;
use pl_json::{Json, Member};
use pl_plan::PlanStep;
use pl_refusals::{push, text};
use std::alloc::Global;

/// A step: the key that it begins with, where that key and where its mapping come from, and the
/// mapping. In the mapping an atom is its cast to a text, and of pairs of one key the last counts.
/// Memory where memory is wanting, and where a value is deeper than `DEEPEST`.
pub fn step_object(alloc: Global, step: &PlanStep) -> Result<Json, Memory>
    ensures { IfOk result (λ made. made ≡ step_object step.now) }
{
    let mut members = List::new(alloc);
    members.push(text(alloc, "form", &step.form)?)?;
    let key = key_in(alloc, &step.body.value)?;
    push(alloc, &mut members, "key", key)?;
    let origin = origin_object(alloc, &step.body.origin)?;
    push(alloc, &mut members, "origin", origin)?;
    let mapping = node_json(alloc, &step.body, DEEPEST)?;
    push(alloc, &mut members, "step", mapping)?;
    Json::object(alloc, members)
}

/// Where the first key of a mapping comes from, or null where there is none.
fn key_in(alloc: Global, value: &Value) -> Result<Json, Memory>
    ensures { IfOk result (λ made. made ≡ key_in (out-Value value.now)) }
{
    match value {
        Value::Object(pairs) => first_key(alloc, pairs),
        _ => Ok(Json::Null),
    }
}

fn first_key(alloc: Global, pairs: &List<MarkedPair>) -> Result<Json, Memory>
    ensures { IfOk result (λ made. made ≡ first_key pairs.now) }
{
    match pairs.as_slice() {
        [] => Ok(Json::Null),
        [pair, ..] => origin_object(alloc, &pair.key_origin),
    }
}

/// A value as JSON; `levels` more may stand in one another.
#[cycle(shown)]
fn value_json(alloc: Global, value: &Value, levels: u32) -> Result<Json, Memory>
    ensures { IfOk result (λ made. made ≡ value_json value.now) }
{
    match value {
        Value::Array(items) => items_json(alloc, items, levels),
        Value::Object(pairs) => pairs_json(alloc, pairs, levels),
        Value::Null => Ok(Json::Text(to_text(alloc, value)?)),
        Value::Bool(_) => Ok(Json::Text(to_text(alloc, value)?)),
        Value::Number(_) => Ok(Json::Text(to_text(alloc, value)?)),
        Value::Version(_) => Ok(Json::Text(to_text(alloc, value)?)),
        Value::Str(_) => Ok(Json::Text(to_text(alloc, value)?)),
    }
}

#[cycle(shown)]
fn node_json(alloc: Global, node: &MarkedNode, levels: u32) -> Result<Json, Memory>
    ensures { IfOk result (λ made. made ≡ node_json node.now) }
{
    let below = levels.checked_sub(1).ok_or(Memory)?;
    value_json(alloc, &node.value, below)
}

#[cycle(shown)]
fn items_json(alloc: Global, items: &List<MarkedNode>, levels: u32) -> Result<Json, Memory>
    ensures { IfOk result (λ made. made ≡ json.Array (map node_json items.now)) }
{
    let mut shown = List::new(alloc);
    for item in items.as_slice() {
        shown.push(node_json(alloc, item, levels)?)?;
    }
    Ok(Json::Array(shown))
}

#[cycle(shown)]
fn pairs_json(alloc: Global, pairs: &List<MarkedPair>, levels: u32) -> Result<Json, Memory>
    ensures { IfOk result (λ made. made ≡ object (map pair_member pairs.now)) }
{
    let mut members = List::new(alloc);
    for pair in pairs.as_slice() {
        members.push(pair_member(alloc, pair, levels)?)?;
    }
    Json::object(alloc, members)
}

#[cycle(shown)]
fn pair_member(alloc: Global, pair: &MarkedPair, levels: u32) -> Result<Member<Json>, Memory>
    ensures { IfOk result (λ made. made ≡ pair_member pair.now) }
{
    let value = node_json(alloc, &pair.item, levels)?;
    let name = pair.key.copy(alloc)?;
    Ok(Member { name, value })
}
