ghost use Rattle.std.specs.Prelude.{◌≡◌, IfOk, MatchResult};
ghost use Rattle.pl_schema_parts.specs.Gives.{Gives, Refuses};
ghost use Rattle.pl_schema_parts.specs.Scalars.{text_in, filled_in, some_text, truth_in};
ghost use Rattle.pl_schema_parts.specs.Scalars.{behaviour_named};
ghost use Rattle.pl_schema_parts.specs.Scalars.{behaviour_in, limited, limited_in, condition_in};
ghost use Rattle.pl_schema_parts.specs.Scalars.{pairs_in, items_in};

use crate::fault::{SchemaCode, SchemaFault};
use crate::rows::at_node;
use pl_base::{Behaviour, MarkedNode, MarkedPair, Text, Value};
use pl_expr::{Expr, ExprFault, Mode, parse, to_number, to_text};
use pl_literal::boolean_in;
use std::alloc::Global;

/// A scalar by its text.
pub fn text_in(alloc: Global, node: &MarkedNode) -> Result<Text, SchemaFault>
    ensures { Gives result (text_in node.now) }
{
    match &node.value {
        Value::Array(_) | Value::Object(_) => { Err(at_node(alloc, SchemaCode::WrongShape, node)) }
        Value::Null | Value::Bool(_) | Value::Number(_) | Value::Version(_) | Value::Str(_) => {
            Ok(to_text(alloc, &node.value)?)
        }
    }
}

/// A text that isn't empty.
pub fn filled_in(alloc: Global, node: &MarkedNode) -> Result<Text, SchemaFault>
    ensures { Gives result (filled_in node.now) }
{
    let text = text_in(alloc, node)?;
    if text.is_empty() {
        return Err(at_node(alloc, SchemaCode::MissingKey, node));
    }
    Ok(text)
}

/// A text, unless it is empty.
pub fn some_text(text: Text) -> Option<Text>
    ensures { result ≡ some_text text }
{
    if text.is_empty() { None } else { Some(text) }
}

/// A scalar that is a Boolean.
#[tactic(auto, unfolding(crate::specs::Scalars::truth_in))]
pub fn truth_in(alloc: Global, node: &MarkedNode) -> Result<bool, SchemaFault>
    ensures { Gives result (truth_in node.now) }
{
    match boolean_in(&text_in(alloc, node)?) {
        Some(truth) => Ok(truth),
        None => Err(at_node(alloc, SchemaCode::WrongShape, node)),
    }
}

fn behaviour_named(text: &Text) -> Option<Behaviour>
    ensures { result ≡ behaviour_named text.now }
{
    match text.as_str() {
        "sequential" => Some(Behaviour::Sequential),
        "runLatest" => Some(Behaviour::RunLatest),
        _ => None,
    }
}

/// A scalar that is the name of a lock's behaviour.
#[tactic(auto, unfolding(crate::specs::Scalars::behaviour_in))]
pub fn behaviour_in(alloc: Global, node: &MarkedNode) -> Result<Behaviour, SchemaFault>
    ensures { Gives result (behaviour_in node.now) }
{
    match behaviour_named(&text_in(alloc, node)?) {
        Some(behaviour) => Ok(behaviour),
        None => Err(at_node(alloc, SchemaCode::WrongShape, node)),
    }
}

/// The number that a text is, from the least to the greatest one that may stand there.
fn limited(least: u32, greatest: u32, text: Text) -> Option<u32>
    ensures { result ≡ limited least greatest text }
{
    if text.is_empty() {
        return None;
    }
    let number = to_number(&Value::Str(text))?;
    match u32::try_from(number) {
        Ok(number) if least <= number && number <= greatest => Some(number),
        _ => None,
    }
}

/// A scalar that is a number within limits.
#[tactic(auto, unfolding(crate::specs::Scalars::limited_in))]
pub fn limited_in(
    alloc: Global,
    least: u32,
    greatest: u32,
    node: &MarkedNode,
) -> Result<u32, SchemaFault>
    ensures { Gives result (limited_in least greatest node.now) }
{
    match limited(least, greatest, text_in(alloc, node)?) {
        Some(number) => Ok(number),
        None => Err(at_node(alloc, SchemaCode::BadNumber, node)),
    }
}

/// A scalar that is a condition.
#[tactic(auto, unfolding(crate::specs::Scalars::condition_in))]
pub fn condition_in(alloc: Global, node: &MarkedNode) -> Result<Expr, SchemaFault>
    ensures { Gives result (condition_in node.now) }
{
    match parse(alloc, &text_in(alloc, node)?, Mode::Condition) {
        Ok(condition) => Ok(condition),
        Err(ExprFault::Memory) => Err(SchemaFault::Memory),
        Err(ExprFault::Refused { .. }) => { Err(at_node(alloc, SchemaCode::BadCondition, node)) }
    }
}

/// A mapping's pairs; an empty scalar has none.
pub fn pairs_in(alloc: Global, node: &MarkedNode) -> Result<&[MarkedPair], SchemaFault>
    ensures { MatchResult result (λ pairs. Gives (Ok pairs.now) (pairs_in node.now))
        (λ fault. Refuses fault (pairs_in node.now)) }
{
    match &node.value {
        Value::Object(pairs) => Ok(pairs.as_slice()),
        Value::Null => Ok(&[]),
        Value::Str(text) if text.is_empty() => Ok(&[]),
        _ => Err(at_node(alloc, SchemaCode::WrongShape, node)),
    }
}

/// A list's items; an empty scalar has none.
pub fn items_in(alloc: Global, node: &MarkedNode) -> Result<&[MarkedNode], SchemaFault>
    ensures { MatchResult result (λ items. Gives (Ok items.now) (items_in node.now))
        (λ fault. Refuses fault (items_in node.now)) }
{
    match &node.value {
        Value::Array(items) => Ok(items.as_slice()),
        Value::Null => Ok(&[]),
        Value::Str(text) if text.is_empty() => Ok(&[]),
        _ => Err(at_node(alloc, SchemaCode::WrongShape, node)),
    }
}
