ghost use Rattle.std.specs.Prelude.{◌≡◌, Some, IfOk};
ghost use Rattle.pl_eval.specs.LookUps.{found_behind, made, part_of};
ghost use Rattle.pl_frame.specs.Names.{parameters_at, variables_at, taken};
ghost use Rattle.pl_frame.specs.Trees.{all_moved};

use crate::contexts::{parameters_at, taken_of, variable_node, variables_at};
use crate::frame::{Frame, Parameter, Variable};
use crate::members::{parameter_at, variable_at};
use crate::moving::move_node_to;
use crate::origins::made_at;
use pl_base::{Memory, Origin, Place, Value};
use pl_budgets::Meter;
use pl_eval::{RootPart, find_behind, find_member};
use std::alloc::Global;

/// What a path finds in the object of the parameters.
pub fn part_of_parameters(
    alloc: Global,
    frame: &Frame,
    place: &Place,
    path: &[Value],
) -> Result<RootPart, Memory>
    ensures { IfOk result (λ part. part ≡ part_of
        (Some (found_behind path.now (parameters_at frame.now place.now)))) }
{
    let Some((at, rest)) = path.split_first() else {
        return Ok(RootPart::Found(parameters_at(alloc, frame, place)?));
    };
    match parameter_at(alloc, &frame.parameters, at)? {
        Some(parameter) => part_of_parameter(alloc, frame.meter(), place, parameter, rest),
        None => Ok(RootPart::Missing),
    }
}

/// What a path finds in what an expression at a place takes of a parameter.
fn part_of_parameter(
    alloc: Global,
    meter: &Meter,
    place: &Place,
    parameter: &Parameter,
    path: &[Value],
) -> Result<RootPart, Memory>
    ensures { IfOk result
        (λ part. part ≡ part_of (Some (found_behind path.now (taken place.now parameter.now)))) }
{
    match find_behind(alloc, meter, &parameter.value, path)? {
        Some(found) => Ok(RootPart::Found(taken_of(alloc, place, parameter, found)?)),
        None => Ok(RootPart::Missing),
    }
}

/// What a path finds in the object of the variables.
pub fn part_of_variables(
    alloc: Global,
    frame: &Frame,
    place: &Place,
    path: &[Value],
) -> Result<RootPart, Memory>
    ensures { IfOk result (λ part. part ≡ part_of
        (Some (found_behind path.now (variables_at frame.now place.now)))) }
{
    let Some((at, rest)) = path.split_first() else {
        return Ok(RootPart::Found(variables_at(alloc, frame, place)?));
    };
    let here = made_at(alloc, frame, place)?;
    match variable_at(alloc, frame.variables.all(), at)? {
        Some(variable) => part_of_variable(alloc, frame.meter(), &here, variable, rest),
        None => Ok(RootPart::Missing),
    }
}

/// What a path finds in the value of a variable, all of which is made there.
fn part_of_variable(
    alloc: Global,
    meter: &Meter,
    here: &Origin,
    variable: &Variable,
    path: &[Value],
) -> Result<RootPart, Memory>
    ensures { IfOk result
        (λ part. part ≡ part_of
        (Some (found_behind path.now
        (made here.now (all_moved (λ _. here.now) variable.now.value))))) }
{
    let Some((at, rest)) = path.split_first() else {
        return Ok(RootPart::Found(variable_node(alloc, here, variable)?));
    };
    let Some(node) = find_member(alloc, &variable.value, at)? else {
        return Ok(RootPart::Missing);
    };
    match find_behind(alloc, meter, node, rest)? {
        Some(found) => Ok(RootPart::Found(move_node_to(alloc, found, here)?)),
        None => Ok(RootPart::Missing),
    }
}
