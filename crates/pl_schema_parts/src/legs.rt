ghost use Rattle.std.specs.Prelude.{◌≡◌};
ghost use Rattle.pl_base.specs.declared.value.Value.{out-Value};
ghost use Rattle.pl_schema_parts.specs.Gives.{Gives, Makes};
ghost use Rattle.pl_schema_parts.specs.Rows.{read_pair, in_order};
ghost use Rattle.pl_schema_parts.specs.Legs as spec;

use crate::fault::{SchemaCode, SchemaFault};
use crate::pipeline::LegSpec;
use crate::rows::at_key;
use crate::scalars::{limited_in, pairs_in, text_in};
use crate::variables::late_in;
use pl_base::{ExactCopy, MarkedNode, MarkedPair, Value};
use std::alloc::Global;

/// How many legs `parallel` may make.
const MOST_LEGS: u32 = 100;

/// How many legs may run at once.
const MOST_AT_ONCE: u32 = 256;

/// A job's strategy.
#[derive(Drop)]
pub struct Legs {
    pub legs: LegSpec,
    pub max_parallel: Option<u32>,
}

/// A job without a strategy.
pub fn no_legs() -> Legs
    ensures { result ≡ spec.no_legs }
{
    Legs {
        legs: LegSpec::One,
        max_parallel: None,
    }
}

/// A job's strategy.
#[tactic(auto, unfolding(crate::specs::Legs::legs_in))]
pub fn legs_in(alloc: Global, node: &MarkedNode) -> Result<Legs, SchemaFault>
    ensures { Gives result (spec.legs_in node.now) }
{
    let pairs = pairs_in(alloc, node)?;
    legs_of(alloc, pairs)
}

fn legs_of(alloc: Global, pairs: &[MarkedPair]) -> Result<Legs, SchemaFault>
    ensures { Gives result (in_order (read_pair spec.legs_row) spec.no_legs pairs.now) }
{
    let mut legs = no_legs();
    for pair in pairs {
        legs_pair(alloc, &mut legs, pair)?;
    }
    Ok(legs)
}

/// What a pair makes of a strategy.
fn legs_pair(alloc: Global, legs: &mut Legs, pair: &MarkedPair) -> Result<(), SchemaFault>
    ensures { Makes result legs.new (read_pair spec.legs_row legs.old pair.now) }
{
    match pair.key.as_str() {
        "matrix" => set_matrix(alloc, legs, pair),
        "parallel" => set_parallel(alloc, legs, pair),
        "maxParallel" => {
            legs.max_parallel = Some(limited_in(alloc, 1, MOST_AT_ONCE, &pair.item)?);
            Ok(())
        }
        _ => Err(at_key(alloc, SchemaCode::UnknownKey, pair)),
    }
}

fn set_matrix(alloc: Global, legs: &mut Legs, pair: &MarkedPair) -> Result<(), SchemaFault>
    ensures { Makes result legs.new (spec.set_matrix legs.old pair.now) }
{
    if is_cut(&legs.legs) {
        return Err(at_key(alloc, SchemaCode::WrongShape, pair));
    }
    legs.legs = LegSpec::Matrix(matrix_in(alloc, &pair.item)?);
    Ok(())
}

fn set_parallel(alloc: Global, legs: &mut Legs, pair: &MarkedPair) -> Result<(), SchemaFault>
    ensures { Makes result legs.new (spec.set_parallel legs.old pair.now) }
{
    if is_cut(&legs.legs) {
        return Err(at_key(alloc, SchemaCode::WrongShape, pair));
    }
    legs.legs = LegSpec::Parallel(limited_in(alloc, 1, MOST_LEGS, &pair.item)?);
    Ok(())
}

fn is_cut(legs: &LegSpec) -> bool
    ensures { result ≡ spec.is_cut legs.now }
{
    match legs {
        LegSpec::One => false,
        LegSpec::Parallel(_) | LegSpec::Matrix(_) => true,
    }
}

/// A matrix as it is written, once the expressions in it parse.
#[tactic(auto, unfolding(crate::specs::Legs::matrix_in))]
fn matrix_in(alloc: Global, node: &MarkedNode) -> Result<MarkedNode, SchemaFault>
    ensures { Gives result (spec.matrix_in node.now) }
{
    judge_legs(alloc, pairs_in(alloc, node)?)?;
    Ok(node.copy(alloc)?)
}

fn judge_legs(alloc: Global, legs: &[MarkedPair]) -> Result<(), SchemaFault>
    ensures { Gives result (in_order spec.judge_leg tt legs.now) }
{
    for leg in legs {
        judge_values(alloc, &leg.item.value)?;
    }
    Ok(())
}

fn judge_values(alloc: Global, value: &Value) -> Result<(), SchemaFault>
    ensures { Gives result (spec.judge_values (out-Value value.now)) }
{
    match value {
        Value::Object(pairs) => judge_pairs(alloc, pairs.as_slice()),
        _ => Ok(()),
    }
}

fn judge_pairs(alloc: Global, pairs: &[MarkedPair]) -> Result<(), SchemaFault>
    ensures { Gives result (in_order spec.judge_value tt pairs.now) }
{
    for pair in pairs {
        judge_value(alloc, &pair.item)?;
    }
    Ok(())
}

fn judge_value(alloc: Global, node: &MarkedNode) -> Result<(), SchemaFault>
    ensures { Gives result (spec.judge_text node.now) }
{
    match &node.value {
        Value::Array(_) | Value::Object(_) => Ok(()),
        _ => {
            let text = text_in(alloc, node)?;
            late_in(alloc, node, &text)?;
            Ok(())
        }
    }
}
