ghost use Rattle.std.specs.Prelude.{◌≡◌, find, IfOk};
ghost use Rattle.std.specs.Option.{option_copied};
ghost use Rattle.pl_expr.specs.Conversions.{text_of};
ghost use Rattle.pl_eval.specs.Known.{same_name};
ghost use Rattle.pl_frame.specs.Members.{loop_of, parameter_at, variable_at};

use crate::frame::{Loop, Parameter, Variable};
use pl_base::{List, MarkedNode, Memory, SharedList, Text, Value, equals_ignoring_case};
use pl_expr::to_text;
use std::alloc::Global;

/// Whether a key is that name, the case of letters aside.
fn is_named(key: &Text, name: &Text) -> bool
    ensures { result ≡ same_name name.now key.now }
{
    equals_ignoring_case(key, name)
}

/// The item of the innermost loop of that name, the case of letters aside.
pub fn loop_named<'l>(
    alloc: Global,
    loops: &'l SharedList<Loop>,
    name: &Text,
) -> Result<Option<&'l MarkedNode>, Memory>
    ensures { IfOk result (λ item. option_copied item ≡ loop_of loops.now name.now) }
{
    let mut rest = loops.to_vec(alloc)?;
    while let Some(innermost) = rest.pop() {
        if is_named(&innermost.name, name) {
            return Ok(Some(&innermost.item));
        }
    }
    Ok(None)
}

/// The name that an index converts to, or None for an array and an object.
fn name_in(alloc: Global, at: &Value) -> Result<Option<Text>, Memory>
    ensures { IfOk result (λ name. name ≡ text_of at.now) }
{
    match at {
        Value::Array(_) | Value::Object(_) => Ok(None),
        _ => Ok(Some(to_text(alloc, at)?)),
    }
}

/// The first parameter of that name, the case of letters aside.
#[tactic(auto, using(crate::proofs::Walking::find_yes, crate::proofs::Walking::find_no))]
fn parameter_named<'p>(parameters: &'p List<Parameter>, name: &Text) -> Option<&'p Parameter>
    ensures { option_copied result ≡ find (λ parameter. same_name name.now parameter.name)
        parameters.now }
{
    for parameter in parameters.as_slice() {
        if is_named(&parameter.name, name) {
            return Some(parameter);
        }
    }
    None
}

/// The first variable of that name, the case of letters aside.
#[tactic(auto, using(crate::proofs::Walking::find_yes, crate::proofs::Walking::find_no))]
fn variable_named<'v>(variables: &'v List<Variable>, name: &Text) -> Option<&'v Variable>
    ensures { option_copied result ≡ find (λ variable. same_name name.now variable.name)
        variables.now }
{
    for variable in variables.as_slice() {
        if is_named(&variable.name, name) {
            return Some(variable);
        }
    }
    None
}

/// The parameter that an index finds: the first of the name that the index converts to.
pub fn parameter_at<'p>(
    alloc: Global,
    parameters: &'p List<Parameter>,
    at: &Value,
) -> Result<Option<&'p Parameter>, Memory>
    ensures { IfOk result
        (λ parameter. option_copied parameter ≡ parameter_at parameters.now at.now) }
{
    match name_in(alloc, at)? {
        Some(name) => Ok(parameter_named(parameters, &name)),
        None => Ok(None),
    }
}

/// The variable that an index finds: the first of the name that the index converts to.
pub fn variable_at<'v>(
    alloc: Global,
    variables: &'v List<Variable>,
    at: &Value,
) -> Result<Option<&'v Variable>, Memory>
    ensures { IfOk result (λ variable. option_copied variable ≡ variable_at variables.now at.now) }
{
    match name_in(alloc, at)? {
        Some(name) => Ok(variable_named(variables, &name)),
        None => Ok(None),
    }
}
