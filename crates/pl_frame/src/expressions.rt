ghost use Rattle.std.specs.Prelude.{Ok as Good};
ghost use Rattle.pl_frame.specs.Expressions.{expression_at, meant_by};
ghost use Rattle.pl_frame.specs.Gives.{Gives};

use crate::frame::Frame;
use crate::names::FrameNames;
use crate::origins::made_at;
use crate::problem::{ExpressionFault, ExpressionProblem};
use pl_base::{MarkedNode, Memory, Place, Text};
use pl_eval::{EvalFault, eval};
use pl_expr::{Expr, ExprFault, Mode, parse};
use std::alloc::Global;

/// The value of an expression's text at a place of a frame's file (Microsoft Learn, Azure
/// Pipelines, "Expressions"): over the frame's loops, parameters and variables, what it makes being
/// made at that place. Unparsed where the text is no expression of templates, Undefined where it
/// has no value. Memory may come at any time.
pub fn expression_at(
    alloc: Global,
    frame: &Frame,
    place: &Place,
    text: &Text,
) -> Result<MarkedNode, ExpressionFault>
    ensures { Gives result (expression_at frame.now place.now text.now) }
{
    frame.meter().begin();
    frame.read_text(text)?;
    match parse(alloc, text, Mode::Compile) {
        Ok(expr) => value_at(alloc, frame, place, &expr),
        Err(ExprFault::Refused { code, at: _ }) => {
            let problem = ExpressionProblem::Unparsed(code);
            Err(ExpressionFault::Refused(problem))
        }
        Err(ExprFault::Memory) => Err(ExpressionFault::Memory),
    }
}

/// The value of an expression at a place of a frame's file.
fn value_at(
    alloc: Global,
    frame: &Frame,
    place: &Place,
    expr: &Expr,
) -> Result<MarkedNode, ExpressionFault>
    ensures { Gives result (meant_by frame.now place.now (Good expr.now)) }
{
    let here = made_at(alloc, frame, place)?;
    let names = FrameNames { frame, place };
    match eval(alloc, expr, &names, &here) {
        Ok(node) => Ok(node),
        Err(EvalFault::Refused(code)) => {
            let problem = ExpressionProblem::Undefined(code);
            Err(ExpressionFault::Refused(problem))
        }
        Err(EvalFault::Memory) => Err(ExpressionFault::Memory),
    }
}
