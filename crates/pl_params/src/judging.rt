ghost use Rattle.std.specs.Prelude.{◌≡◌, IfOk, []};
ghost use Rattle.std.specs.List.{list_any};
ghost use Rattle.pl_literal.specs.Literal.{literal};
ghost use Rattle.pl_params.specs.Judging.{is_value, allows, judged};

use crate::kind::ParamKind;
use crate::reading::read_as;
use pl_base::{List, MarkedNode, Memory, Node, SharedList, Value};
use pl_literal::{literal, same_value};
use std::alloc::Global;

/// A value before a parameter's type and its allowed values: as the type reads it, or why not.
#[derive(Debug, Drop)]
pub enum Judged {
    Fits(MarkedNode),
    NotOfType,
    NotAllowed,
}

/// Judges a value by a type and the allowed values.
pub fn judge(
    alloc: Global,
    kind: ParamKind,
    values: &List<Node>,
    node: MarkedNode,
) -> Result<Judged, Memory>
    ensures { IfOk result (λ judgement. judgement ≡ judged kind values.now node) }
{
    match read_as(alloc, kind, node)? {
        Some(read) => {
            if allows(alloc, kind, values, &read.value)? {
                Ok(Judged::Fits(read))
            } else {
                Ok(Judged::NotAllowed)
            }
        }
        None => Ok(Judged::NotOfType),
    }
}

/// A node that is written in the template, as a value. What was crossed is said where it is bound.
pub fn written(alloc: Global, node: &Node) -> Result<MarkedNode, Memory>
    ensures { IfOk result (λ value. value ≡ literal [] node.now) }
{
    literal(alloc, node, &SharedList::new(alloc)?)
}

/// Whether a value is among the allowed ones, or these are none.
fn allows(
    alloc: Global,
    kind: ParamKind,
    values: &List<Node>,
    value: &Value,
) -> Result<bool, Memory>
    ensures { IfOk result (λ is. is ≡ allows kind values.now value.now) }
{
    if values.is_empty() {
        return Ok(true);
    }
    is_among(alloc, kind, values, value)
}

#[tactic(auto, using(pl_base::proofs::Finding::any_drop_yes, pl_base::proofs::Finding::any_drop_no))]
fn is_among(
    alloc: Global,
    kind: ParamKind,
    values: &List<Node>,
    value: &Value,
) -> Result<bool, Memory>
    ensures { IfOk result (λ is. is ≡ list_any (is_value kind value.now) values.now) }
{
    for entry in values.as_slice() {
        if is_value(alloc, kind, value, entry)? {
            return Ok(true);
        }
    }
    Ok(false)
}

/// Whether a value is what an allowed one is, once the type has read that.
fn is_value(alloc: Global, kind: ParamKind, value: &Value, entry: &Node) -> Result<bool, Memory>
    ensures { IfOk result (λ is. is ≡ is_value kind value.now entry.now) }
{
    let entry = written(alloc, entry)?;
    match read_as(alloc, kind, entry)? {
        Some(read) => Ok(same_value(value, &read.value)),
        None => Ok(false),
    }
}
