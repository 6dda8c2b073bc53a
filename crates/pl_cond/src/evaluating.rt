ghost use Rattle.std.specs.Prelude.{◌≡◌, IfOk};
ghost use Rattle.pl_eval.specs.Gives.{Gives};
ghost use Rattle.pl_eval.specs.Means.{means};
ghost use Rattle.pl_cond.specs.Conditions.{counts};
ghost use Rattle.pl_cond.specs.Contexts.{Fits, known_in};
ghost use Rattle.pl_cond.specs.Variables.{value_or_null};

use crate::context::Context;
use crate::resolving::resolve;
use crate::variables::Variable;
use pl_base::{MarkedNode, Memory, Value};
use pl_eval::{EvalFault, eval};
use pl_expr::{Expr, to_bool};
use std::alloc::Global;

/// What an expression means beside those variables.
fn evaluate(
    alloc: Global,
    context: &Context,
    variables: &[Variable],
    expr: &Expr,
) -> Result<MarkedNode, EvalFault>
    requires { Fits context.now }
    ensures { Gives result
        (means (known_in context.now variables.now) context.now.here expr.now) }
{
    let expr = resolve(alloc, context, variables, expr)?;
    eval(alloc, &expr, &context.statuses, &context.here)
}

/// The value of an expression, or Null where it has a fault.
pub fn value_or_null(
    alloc: Global,
    context: &Context,
    variables: &[Variable],
    expr: &Expr,
) -> Result<Value, Memory>
    requires { Fits context.now }
    ensures { IfOk result (λ value. value ≡ value_or_null
        (means (known_in context.now variables.now) context.now.here expr.now)) }
{
    match evaluate(alloc, context, variables, expr) {
        Ok(node) => Ok(node.value),
        Err(EvalFault::Refused(_)) => Ok(Value::Null),
        Err(EvalFault::Memory) => Err(Memory),
    }
}

/// Whether a condition's value counts as true; a fault doesn't.
pub fn counts(
    alloc: Global,
    context: &Context,
    variables: &[Variable],
    expr: &Expr,
) -> Result<bool, Memory>
    requires { Fits context.now }
    ensures { IfOk result (λ is. is ≡ counts
        (means (known_in context.now variables.now) context.now.here expr.now)) }
{
    match evaluate(alloc, context, variables, expr) {
        Ok(node) => Ok(to_bool(&node.value)),
        Err(EvalFault::Refused(_)) => Ok(false),
        Err(EvalFault::Memory) => Err(Memory),
    }
}
