ghost use Rattle.std.specs.Prelude.{◌≡◌, IfOk};
ghost use Rattle.std.specs.List.{list_all};
ghost use Rattle.pl_base.specs.declared.value.Value.{out-Value};
ghost use Rattle.pl_params.specs.Kinds.{string_in, number_from, boolean_from, is_item, item_in};
ghost use Rattle.pl_params.specs.Kinds.{items_from, value_as, read_as};

use crate::kind::ParamKind;
use pl_base::{List, MarkedNode, Memory, Value};
use pl_expr::{to_number, to_text};
use pl_literal::{ItemKind, boolean_in, kind_of_item};
use std::alloc::Global;

/// A node as a type reads it, with the origin that it has. None where it isn't of the type.
pub fn read_as(
    alloc: Global,
    kind: ParamKind,
    node: MarkedNode,
) -> Result<Option<MarkedNode>, Memory>
    ensures { IfOk result (λ read. read ≡ read_as kind node) }
{
    let MarkedNode { origin, value } = node;
    match value_as(alloc, kind, value)? {
        Some(value) => Ok(Some(MarkedNode { origin, value })),
        None => Ok(None),
    }
}

/// A value as a type reads it.
fn value_as(alloc: Global, kind: ParamKind, value: Value) -> Result<Option<Value>, Memory>
    ensures { IfOk result (λ read. read ≡ value_as kind value) }
{
    match kind {
        ParamKind::String => string_in(alloc, &value),
        ParamKind::Number => Ok(number_in(&value)),
        ParamKind::Boolean => Ok(truth_in(&value)),
        ParamKind::Object => Ok(Some(value)),
        ParamKind::Step => Ok(item_in(ItemKind::Step, value)),
        ParamKind::StepList => Ok(items_in(alloc, ItemKind::Step, value)),
        ParamKind::Job => Ok(item_in(ItemKind::Job, value)),
        ParamKind::JobList => Ok(items_in(alloc, ItemKind::Job, value)),
        ParamKind::Deployment => Ok(item_in(ItemKind::Deployment, value)),
        ParamKind::DeploymentList => Ok(items_in(alloc, ItemKind::Deployment, value)),
        ParamKind::Stage => Ok(item_in(ItemKind::Stage, value)),
        ParamKind::StageList => Ok(items_in(alloc, ItemKind::Stage, value)),
    }
}

/// The text that an atom converts to.
fn string_in(alloc: Global, value: &Value) -> Result<Option<Value>, Memory>
    ensures { IfOk result (λ read. read ≡ string_in value.now) }
{
    match value {
        Value::Array(_) | Value::Object(_) => Ok(None),
        Value::Null | Value::Bool(_) | Value::Number(_) | Value::Version(_) | Value::Str(_) => {
            Ok(Some(Value::Str(to_text(alloc, value)?)))
        }
    }
}

/// A number, or the number that a text is, if it isn't empty.
fn number_in(value: &Value) -> Option<Value>
    ensures { result ≡ number_from (out-Value value.now) }
{
    match value {
        Value::Number(number) => Some(Value::Number(*number)),
        Value::Str(text) if text.is_empty() => None,
        Value::Str(_) => to_number(value).map(Value::Number),
        _ => None,
    }
}

/// A Boolean, or the Boolean that a text is.
fn truth_in(value: &Value) -> Option<Value>
    ensures { result ≡ boolean_from (out-Value value.now) }
{
    match value {
        Value::Bool(truth) => Some(Value::Bool(*truth)),
        Value::Str(text) => boolean_in(text).map(Value::Bool),
        _ => None,
    }
}

/// Whether a value is an item of a kind, or the call of a template that stands for such items.
fn is_item(wanted: ItemKind, value: &Value) -> bool
    ensures { result ≡ is_item wanted value.now }
{
    match kind_of_item(value) {
        None => false,
        Some(ItemKind::Template) => true,
        Some(found) => found == wanted,
    }
}

/// An item of a kind, or such a call.
fn item_in(wanted: ItemKind, value: Value) -> Option<Value>
    ensures { result ≡ item_in wanted value }
{
    if is_item(wanted, &value) {
        Some(value)
    } else {
        None
    }
}

/// A list of such items, which for an empty scalar is empty.
fn items_in(alloc: Global, wanted: ItemKind, value: Value) -> Option<Value>
    ensures { result ≡ items_from wanted (out-Value value) }
{
    match value {
        Value::Null => Some(Value::Array(List::new(alloc))),
        Value::Str(text) => {
            if text.is_empty() {
                Some(Value::Array(List::new(alloc)))
            } else {
                None
            }
        }
        Value::Array(items) => {
            if are_items(wanted, &items) {
                Some(Value::Array(items))
            } else {
                None
            }
        }
        _ => None,
    }
}

/// Whether all are such items.
fn are_items(wanted: ItemKind, items: &List<MarkedNode>) -> bool
    ensures { result ≡ list_all (λ node. is_item wanted node.value) items.now }
{
    items
        .as_slice()
        .iter()
        .all(|item| is_item(wanted, &item.value))
}
