ghost use Rattle.std.specs.Prelude.{◌≡◌, Result, Bool, true, not, length, map, IfOk};
ghost use Rattle.pl_expr.specs.Conversions.{equals, is_null};
ghost use Rattle.pl_expr.specs.Functions.{most_of};
ghost use Rattle.pl_eval.specs.Statuses.{is_status};
ghost use Rattle.pl_eval.specs.declared.fault.EvalCode.{EvalCode as Code};
ghost use Rattle.pl_eval.specs.Means.{Meaning, means, called, told, contrary, argument, filled};
ghost use Rattle.pl_eval.specs.Means.{counted, up_to, all_true, any_true, first_filled};
ghost use Rattle.pl_eval.specs.Means.{first_is_among, values, status, chosen};
ghost use Rattle.pl_eval.specs.Gives.{Gives};
ghost use Rattle.pl_eval.specs.Held.{Holds};

use crate::apply::apply;
use crate::fault::EvalFault;
use crate::held::{Held, look_behind, value_of};
use crate::look_ups::make;
use crate::manner::{Manner, manner_of};
use crate::names::Names;
use crate::projecting::project;
use crate::texts::cast_items;
use crate::weighing::work_of_applying;
use pl_base::{ExactCopy, List, MarkedNode, Memory, Origin, Value};
use pl_expr::{Expr, Function, loosely_equal, to_bool};
use std::alloc::Global;

/// The value of an expression and where it comes from.
///
/// `here` is the origin of the values that the expression makes: literals, results of functions,
/// the arrays of projections and of `split` with its texts, the Null of a look-up without a match
/// and of `coalesce` without a value. Roots, look-ups, `iif` and `coalesce` hand values on with the
/// origins that they have. In a tree that the grammar never gives, an argument that is missing up
/// to a function's least count is Null, and one past its greatest count isn't looked at.
///
/// A fault is the first one, arguments being looked at from left to right, and none that the
/// functions don't look at: NotConvertible in `lt`, `le`, `gt` and `ge`, FormatIndex, NoLength in
/// `length`, TextTooLong where a function makes a text of more than 65,536 bytes, UnknownRoot where
/// the names have no such root. Memory may come at any time.
pub fn eval<N: Names>(
    alloc: Global,
    expr: &Expr,
    names: &N,
    here: &Origin,
) -> Result<MarkedNode, EvalFault>
    ensures { Gives result (means (N.known names.now) here.now expr.now) }
{
    evaluate(alloc, expr, names, here)
}

/// An answer as a value that is made here.
fn truth_of(
    alloc: Global,
    is: Result<bool, EvalFault>,
    here: &Origin,
) -> Result<MarkedNode, EvalFault>
    ensures { (meant : Result Bool Code) → Gives is meant → Gives result (told here.now meant) }
{
    match is {
        Ok(is) => Ok(make(alloc, Value::Bool(is), here)?),
        Err(fault) => Err(fault),
    }
}

/// The contrary of an answer as a value that is made here.
fn contrary_of(
    alloc: Global,
    is: Result<bool, EvalFault>,
    here: &Origin,
) -> Result<MarkedNode, EvalFault>
    ensures { (meant : Result Bool Code) → Gives is meant → Gives result (contrary here.now meant) }
{
    match is {
        Ok(is) => Ok(make(alloc, Value::Bool(!is), here)?),
        Err(fault) => Err(fault),
    }
}

/// What a status function answers of the dependencies that the values name.
fn status<N: Names>(
    alloc: Global,
    function: Function,
    nodes: &List<MarkedNode>,
    names: &N,
    here: &Origin,
) -> Result<MarkedNode, EvalFault>
    requires { is_status function ≡ true }
    ensures { Gives result (status (N.known names.now) here.now function nodes.now) }
{
    let texts = cast_items(alloc, nodes.as_slice())?;
    let is = names.status(function, &texts);
    Ok(make(alloc, Value::Bool(is), here)?)
}

/// How many of the arguments a function looks at.
fn count_of(function: Function, arguments: &List<Expr>) -> usize
    ensures { result ≡ counted (most_of function) (length arguments.now) }
{
    match function.most() {
        Some(most) => most.min(arguments.len()),
        None => arguments.len(),
    }
}

/// Whether the right value, converted to the left one's type, is equal to it.
fn is_equal_to(alloc: Global, left: &Value, right: MarkedNode) -> Result<bool, Memory>
    ensures { IfOk result (λ is. is ≡ equals left.now right.value) }
{
    loosely_equal(alloc, left, &right.value)
}

/// Whether a value is neither Null nor the empty text.
fn is_filled(value: &Value) -> bool
    ensures { result ≡ not (is_null value.now) }
{
    match value {
        Value::Null => false,
        Value::Str(text) => !text.is_empty(),
        _ => true,
    }
}

#[cycle(evaluation)]
fn evaluate<N: Names>(
    alloc: Global,
    expr: &Expr,
    names: &N,
    here: &Origin,
) -> Result<MarkedNode, EvalFault>
    ensures { Gives result (means (N.known names.now) here.now expr.now) }
{
    match hold(alloc, expr, names, here) {
        Ok(held) => value_of(alloc, held, names, here),
        Err(fault) => Err(fault),
    }
}

/// What an expression stands for, a part of a root without looking it up.
#[cycle(evaluation)]
fn hold<'e, N: Names>(
    alloc: Global,
    expr: &'e Expr,
    names: &N,
    here: &Origin,
) -> Result<Held<'e>, EvalFault>
    ensures { Holds (N.known names.now) here.now result
        (means (N.known names.now) here.now expr.now) }
{
    match expr {
        Expr::Lit(value) => Ok(Held::Node(make(alloc, value.copy(alloc)?, here)?)),
        Expr::Root(name) => Ok(Held::Part(name, List::new(alloc))),
        Expr::Index(of, at) => match hold(alloc, of.get(), names, here) {
            Ok(of) => {
                let at = evaluate(alloc, at.get(), names, here);
                look_behind(alloc, of, at, names, here)
            }
            Err(fault) => Err(fault),
        },
        Expr::Project(of, members) => {
            let of = evaluate(alloc, of.get(), names, here)?;
            let found = project(alloc, of.value, members)?;
            Ok(Held::Node(make(alloc, found, here)?))
        }
        Expr::Call(function, arguments) => {
            Ok(Held::Node(call(alloc, *function, arguments, names, here)?))
        }
    }
}

#[cycle(evaluation)]
fn call<N: Names>(
    alloc: Global,
    function: Function,
    arguments: &List<Expr>,
    names: &N,
    here: &Origin,
) -> Result<MarkedNode, EvalFault>
    ensures { Gives result (called (N.known names.now) here.now function
        (map (means (N.known names.now) here.now) arguments.now)) }
{
    match manner_of(function) {
        Manner::Choosing => choose(alloc, arguments, names, here),
        Manner::All => truth_of(alloc, are_all_true(alloc, arguments, names, here), here),
        Manner::Any => truth_of(alloc, is_any_true(alloc, arguments, names, here), here),
        Manner::First => coalesce(alloc, arguments, names, here),
        Manner::Among => truth_of(alloc, is_first_among(alloc, arguments, names, here), here),
        Manner::NotAmong => contrary_of(alloc, is_first_among(alloc, arguments, names, here), here),
        Manner::Status => {
            let nodes = evaluate_all(alloc, function, arguments, names, here)?;
            status(alloc, function, &nodes, names, here)
        }
        Manner::Strict(operation) => {
            let nodes = evaluate_all(alloc, function, arguments, names, here)?;
            names.spend(0, work_of_applying(operation, &nodes))?;
            Ok(make(alloc, apply(alloc, operation, &nodes, here)?, here)?)
        }
    }
}

/// The value of the argument at a place from 0. A missing one is Null.
#[cycle(evaluation)]
fn evaluate_argument<N: Names>(
    alloc: Global,
    arguments: &List<Expr>,
    at: usize,
    names: &N,
    here: &Origin,
) -> Result<MarkedNode, EvalFault>
    ensures { Gives result
        (argument here.now (map (means (N.known names.now) here.now) arguments.now) at) }
{
    match arguments.get(at) {
        Some(expr) => evaluate(alloc, expr, names, here),
        None => Ok(make(alloc, Value::Null, here)?),
    }
}

/// The second argument where the first counts as true, else the third.
#[cycle(evaluation)]
fn choose<N: Names>(
    alloc: Global,
    arguments: &List<Expr>,
    names: &N,
    here: &Origin,
) -> Result<MarkedNode, EvalFault>
    ensures { Gives result
        (chosen here.now (map (means (N.known names.now) here.now) arguments.now)) }
{
    let condition = evaluate_argument(alloc, arguments, 0, names, here)?;
    if to_bool(&condition.value) {
        evaluate_argument(alloc, arguments, 1, names, here)
    } else {
        evaluate_argument(alloc, arguments, 2, names, here)
    }
}

/// Whether all arguments, two at least, count as true.
#[cycle(evaluation)]
fn are_all_true<N: Names>(
    alloc: Global,
    arguments: &List<Expr>,
    names: &N,
    here: &Origin,
) -> Result<bool, EvalFault>
    ensures { Gives result
        (all_true (filled here.now 2 (map (means (N.known names.now) here.now) arguments.now))) }
{
    for expr in arguments.as_slice() {
        let node = evaluate(alloc, expr, names, here)?;
        if !to_bool(&node.value) {
            return Ok(false);
        }
    }
    Ok(arguments.len() >= 2)
}

/// Whether one of the arguments counts as true.
#[cycle(evaluation)]
fn is_any_true<N: Names>(
    alloc: Global,
    arguments: &List<Expr>,
    names: &N,
    here: &Origin,
) -> Result<bool, EvalFault>
    ensures { Gives result (any_true (map (means (N.known names.now) here.now) arguments.now)) }
{
    for expr in arguments.as_slice() {
        let node = evaluate(alloc, expr, names, here)?;
        if to_bool(&node.value) {
            return Ok(true);
        }
    }
    Ok(false)
}

/// The first argument that is neither Null nor the empty text, else Null.
#[cycle(evaluation)]
fn coalesce<N: Names>(
    alloc: Global,
    arguments: &List<Expr>,
    names: &N,
    here: &Origin,
) -> Result<MarkedNode, EvalFault>
    ensures { Gives result
        (first_filled here.now (map (means (N.known names.now) here.now) arguments.now)) }
{
    for expr in arguments.as_slice() {
        let node = evaluate(alloc, expr, names, here)?;
        if is_filled(&node.value) {
            return Ok(node);
        }
    }
    Ok(make(alloc, Value::Null, here)?)
}

/// Whether the first argument is equal to one of the others.
#[cycle(evaluation)]
fn is_first_among<N: Names>(
    alloc: Global,
    arguments: &List<Expr>,
    names: &N,
    here: &Origin,
) -> Result<bool, EvalFault>
    ensures { Gives result
        (first_is_among here.now (map (means (N.known names.now) here.now) arguments.now)) }
{
    let sought = evaluate_argument(alloc, arguments, 0, names, here)?;
    for (index, expr) in arguments.as_slice().iter().enumerate() {
        if index > 0 {
            let node = evaluate(alloc, expr, names, here)?;
            let same = is_equal_to(alloc, &sought.value, node)?;
            if same {
                return Ok(true);
            }
        }
    }
    Ok(false)
}

/// The values of the arguments that the function looks at.
#[cycle(evaluation)]
fn evaluate_all<N: Names>(
    alloc: Global,
    function: Function,
    arguments: &List<Expr>,
    names: &N,
    here: &Origin,
) -> Result<List<MarkedNode>, EvalFault>
    ensures { Gives result
        (values (up_to (most_of function) (map (means (N.known names.now) here.now) arguments.now))) }
{
    let count = count_of(function, arguments);
    let mut nodes = List::new(alloc);
    for (index, expr) in arguments.as_slice().iter().enumerate() {
        if index < count {
            let node = evaluate(alloc, expr, names, here)?;
            nodes.push(node)?;
        }
    }
    Ok(nodes)
}
