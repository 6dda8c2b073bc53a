ghost use Rattle.std.specs.Prelude.{◌≡◌, [], IfOk, OnOk, find, codes, false};
ghost use Rattle.std.specs.Option.{option_copied};
ghost use Rattle.pl_base.specs.Texts.{is};
ghost use Rattle.pl_expr.specs.Conversions.{text_of};
ghost use Rattle.pl_schema_parts.specs.Gives.{Gives, Makes};
ghost use Rattle.pl_schema_parts.specs.Names.{is_taken, taken, also_taken};
ghost use Rattle.pl_schema_parts.specs.Rows.{in_order, in_turn};
ghost use Rattle.pl_schema_parts.specs.Steps.{is_step_key, step_name, step_names, read_form};
ghost use Rattle.pl_schema_parts.specs.Steps.{step_pair};
ghost use Rattle.pl_schema_parts.specs.Steps.{step_from, step_in, steps_in};

use crate::fault::{SchemaCode, SchemaFault};
use crate::names::{Names, name_in, no_names, take};
use crate::pipeline::StepSpec;
use crate::rows::{at_key, at_node};
use crate::scalars::{items_in, pairs_in, text_in};
use pl_base::{ExactCopy, List, MarkedNode, MarkedPair, Memory, Text, Value};
use pl_expr::to_text;
use pl_literal::{ItemKind, kind_of_key};
use std::alloc::Global;

/// The steps of a job, of which there may be none.
#[tactic(auto, unfolding(crate::specs::Steps::steps_in))]
pub fn steps_in(alloc: Global, node: &MarkedNode) -> Result<List<StepSpec>, SchemaFault>
    ensures { Gives result (steps_in node.now) }
{
    let items = items_in(alloc, node)?;
    steps_of(alloc, items)
}

fn steps_of(alloc: Global, items: &[MarkedNode]) -> Result<List<StepSpec>, SchemaFault>
    ensures { Gives result (in_turn (λ steps item. step_in (is_taken (step_names steps)) item) []
        items.now) }
{
    let mut names = no_names(alloc);
    let mut steps = List::new(alloc);
    for item in items {
        let step = step_in(alloc, &names, item)?;
        take_name(alloc, &mut names, &step)?;
        steps.push(step)?;
    }
    Ok(steps)
}

/// Puts a step's name among those that are taken, if it has one.
fn take_name(alloc: Global, names: &mut Names, step: &StepSpec) -> Result<(), Memory>
    ensures { OnOk result (taken names.new ≡ also_taken (taken names.old) (step_name step.now)) }
{
    match name_of(alloc, step)? {
        Some(name) => take(alloc, names, &name),
        None => Ok(()),
    }
}

/// A step's name.
fn name_of(alloc: Global, step: &StepSpec) -> Result<Option<Text>, Memory>
    ensures { IfOk result (λ name. name ≡ step_name step.now) }
{
    let Value::Object(pairs) = &step.body.value else {
        return Ok(None);
    };
    match name_pair(pairs.as_slice()) {
        Some(pair) => some_text_of(alloc, &pair.item.value),
        None => Ok(None),
    }
}

fn name_pair(pairs: &[MarkedPair]) -> Option<&MarkedPair>
    ensures { option_copied result ≡ find (λ pair. is pair.key (codes "name")) pairs.now }
{
    pairs.iter().find(|pair| pair.key.as_str() == "name")
}

fn some_text_of(alloc: Global, value: &Value) -> Result<Option<Text>, Memory>
    ensures { IfOk result (λ text. text ≡ text_of value.now) }
{
    match value {
        Value::Array(_) | Value::Object(_) => Ok(None),
        Value::Null | Value::Bool(_) | Value::Number(_) | Value::Version(_) | Value::Str(_) => {
            Ok(Some(to_text(alloc, value)?))
        }
    }
}

/// Whether a step begins with that key.
fn is_step_key(key: &Text) -> bool
    ensures { result ≡ is_step_key key.now }
{
    match kind_of_key(key) {
        Some(ItemKind::Step) => true,
        _ => false,
    }
}

/// A step: its mapping as it is written, once its step key and its name are in order.
#[tactic(auto, unfolding(crate::specs::Steps::step_in))]
fn step_in(alloc: Global, names: &Names, node: &MarkedNode) -> Result<StepSpec, SchemaFault>
    ensures { Gives result (step_in (taken names.now) node.now) }
{
    let pairs = pairs_in(alloc, node)?;
    step_of(alloc, names, node, pairs)
}

fn step_of(
    alloc: Global,
    names: &Names,
    node: &MarkedNode,
    pairs: &[MarkedPair],
) -> Result<StepSpec, SchemaFault>
    ensures { Gives result (step_from (taken names.now) node.now pairs.now) }
{
    let [first, ..] = pairs else {
        return Err(at_node(alloc, SchemaCode::FirstKey, node));
    };
    if !is_step_key(&first.key) {
        return Err(at_node(alloc, SchemaCode::FirstKey, node));
    }
    judge_pairs(alloc, names, pairs)?;
    let form = first.key.copy(alloc)?;
    let place = node.origin.source.copy(alloc)?;
    let body = node.copy(alloc)?;
    Ok(StepSpec { form, place, body })
}

fn judge_pairs(alloc: Global, names: &Names, pairs: &[MarkedPair]) -> Result<bool, SchemaFault>
    ensures { Gives result (in_order (step_pair (taken names.now)) false pairs.now) }
{
    let mut begun = false;
    for pair in pairs {
        begun = judge_pair(alloc, names, begun, pair)?;
    }
    Ok(begun)
}

/// Whether the step's key was met, behind a pair.
fn judge_pair(
    alloc: Global,
    names: &Names,
    begun: bool,
    pair: &MarkedPair,
) -> Result<bool, SchemaFault>
    ensures { Gives result (step_pair (taken names.now) begun pair.now) }
{
    if is_step_key(&pair.key) {
        return judge_form(alloc, begun, pair);
    }
    if pair.key.as_str() == "name" {
        name_in(alloc, names, &pair.item)?;
    }
    Ok(begun)
}

/// A step key, which stands alone and before a scalar.
fn judge_form(alloc: Global, begun: bool, pair: &MarkedPair) -> Result<bool, SchemaFault>
    ensures { Gives result (read_form begun pair.now) }
{
    if begun {
        return Err(at_key(alloc, SchemaCode::TwoForms, pair));
    }
    text_in(alloc, &pair.item)?;
    Ok(true)
}
