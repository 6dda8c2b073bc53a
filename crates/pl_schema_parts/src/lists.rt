ghost use Rattle.std.specs.Prelude.{[]};
ghost use Rattle.pl_schema_parts.specs.Gives.{Gives};
ghost use Rattle.pl_schema_parts.specs.Rows.{in_turn};
ghost use Rattle.pl_schema_parts.specs.Scalars.{text_in, just_one, demands_in, depend_in};
ghost use Rattle.pl_schema_parts.specs.Scalars.{depends_in};

use crate::fault::SchemaFault;
use crate::pipeline::DependSpec;
use crate::scalars::text_in;
use pl_base::{ExactCopy, List, MarkedNode, Text, Value};
use std::alloc::Global;

/// The demands of a pool: a list of scalars, or one of them.
#[tactic(auto, unfolding(crate::specs::Scalars::demands_in))]
pub fn demands_in(alloc: Global, node: &MarkedNode) -> Result<List<Text>, SchemaFault>
    ensures { Gives result (demands_in node.now) }
{
    match &node.value {
        Value::Array(items) => texts_of(alloc, items),
        Value::Null => Ok(List::new(alloc)),
        Value::Str(text) if text.is_empty() => Ok(List::new(alloc)),
        _ => one_text(alloc, node),
    }
}

fn texts_of(alloc: Global, items: &List<MarkedNode>) -> Result<List<Text>, SchemaFault>
    ensures { Gives result (in_turn (λ before item. text_in item) [] items.now) }
{
    let mut texts = List::new(alloc);
    for item in items.as_slice() {
        texts.push(text_in(alloc, item)?)?;
    }
    Ok(texts)
}

fn one_text(alloc: Global, node: &MarkedNode) -> Result<List<Text>, SchemaFault>
    ensures { Gives result (just_one text_in node.now) }
{
    let mut texts = List::new(alloc);
    texts.push(text_in(alloc, node)?)?;
    Ok(texts)
}

/// A name that is waited for, and where it is written.
fn depend_in(alloc: Global, node: &MarkedNode) -> Result<DependSpec, SchemaFault>
    ensures { Gives result (depend_in node.now) }
{
    let name = text_in(alloc, node)?;
    let place = node.origin.source.copy(alloc)?;
    Ok(DependSpec { name, place })
}

/// The names that a stage or job waits for: a list of scalars, or one of them.
#[tactic(auto, unfolding(crate::specs::Scalars::depends_in))]
pub fn depends_in(alloc: Global, node: &MarkedNode) -> Result<List<DependSpec>, SchemaFault>
    ensures { Gives result (depends_in node.now) }
{
    match &node.value {
        Value::Array(items) => depends_of(alloc, items),
        Value::Null => Ok(List::new(alloc)),
        Value::Str(text) if text.is_empty() => Ok(List::new(alloc)),
        _ => one_depend(alloc, node),
    }
}

fn depends_of(alloc: Global, items: &List<MarkedNode>) -> Result<List<DependSpec>, SchemaFault>
    ensures { Gives result (in_turn (λ before item. depend_in item) [] items.now) }
{
    let mut depends = List::new(alloc);
    for item in items.as_slice() {
        depends.push(depend_in(alloc, item)?)?;
    }
    Ok(depends)
}

fn one_depend(alloc: Global, node: &MarkedNode) -> Result<List<DependSpec>, SchemaFault>
    ensures { Gives result (just_one depend_in node.now) }
{
    let mut depends = List::new(alloc);
    depends.push(depend_in(alloc, node)?)?;
    Ok(depends)
}
