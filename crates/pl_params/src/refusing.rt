ghost use Rattle.std.specs.Prelude.{◌≡◌, IfOk};
ghost use Rattle.pl_params.specs.Complaints.{complaint, found_of};
ghost use Rattle.pl_params.specs.Nodes.{found_at};

use crate::fault::{Complaint, Found, ParamProblem};
use pl_base::{ExactCopy, Memory, Node, NodeBody, Place, Value};
use pl_expr::to_text;
use std::alloc::Global;

/// What is wrong, at a place.
pub fn complain(alloc: Global, problem: ParamProblem, place: &Place) -> Result<Complaint, Memory>
    ensures { IfOk result (λ made. made ≡ complaint problem place.now) }
{
    let place = place.copy(alloc)?;
    Ok(Complaint { problem, place })
}

/// A value as a complaint names it.
pub fn found_value(alloc: Global, value: &Value) -> Result<Found, Memory>
    ensures { IfOk result (λ found. found ≡ found_of value.now) }
{
    match value {
        Value::Array(_) => Ok(Found::Sequence),
        Value::Object(_) => Ok(Found::Mapping),
        _ => Ok(Found::Atom(to_text(alloc, value)?)),
    }
}

/// A node as a complaint names it.
pub fn found_node(alloc: Global, node: &Node) -> Result<Found, Memory>
    ensures { IfOk result (λ found. found ≡ found_at node.now) }
{
    match &node.body {
        NodeBody::Scalar(text) => Ok(Found::Atom(text.copy(alloc)?)),
        NodeBody::Seq(_) => Ok(Found::Sequence),
        NodeBody::Map(_) => Ok(Found::Mapping),
    }
}
