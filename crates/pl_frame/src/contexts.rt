ghost use Rattle.std.specs.Prelude.{◌≡◌, map, IfOk};
ghost use Rattle.pl_eval.specs.LookUps.{made};
ghost use Rattle.pl_frame.specs.Names.{taken_of, parameter_pair, parameters_at, variable_pair};
ghost use Rattle.pl_frame.specs.Names.{variables_at};
ghost use Rattle.pl_frame.specs.Trees.{all_moved};
ghost use Rattle.pl_frame.specs.Members.{made_pair};

use crate::frame::{Frame, Parameter, Variable};
use crate::moving::{cross, move_to};
use crate::origins::{literal_at, made_at};
use pl_base::{Crossing, ExactCopy, List, MarkedNode, MarkedPair, Memory, Origin, Place, Value};
use std::alloc::Global;

/// What an expression at a place takes of a node of a parameter's value: what was given crosses the
/// parameter once more, and a default stays as it is.
pub fn taken_of(
    alloc: Global,
    place: &Place,
    parameter: &Parameter,
    node: &MarkedNode,
) -> Result<MarkedNode, Memory>
    ensures { IfOk result (λ taken. taken ≡ taken_of place.now parameter.now node.now) }
{
    if !parameter.given {
        return node.copy(alloc);
    }
    let name = parameter.name.copy(alloc)?;
    let crossing = Crossing::Argument(name, place.copy(alloc)?);
    cross(alloc, node, &crossing)
}

/// The parameters as an object.
pub fn parameters_at(alloc: Global, frame: &Frame, place: &Place) -> Result<MarkedNode, Memory>
    ensures { IfOk result (λ node. node ≡ parameters_at frame.now place.now) }
{
    let mut pairs = List::new(alloc);
    for parameter in frame.parameters.as_slice() {
        pairs.push(parameter_pair(alloc, frame, place, parameter)?)?;
    }
    let origin = made_at(alloc, frame, place)?;
    let value = Value::Object(pairs);
    Ok(MarkedNode { origin, value })
}

/// A parameter as a property.
fn parameter_pair(
    alloc: Global,
    frame: &Frame,
    place: &Place,
    parameter: &Parameter,
) -> Result<MarkedPair, Memory>
    ensures { IfOk result (λ pair. pair ≡ parameter_pair frame.now place.now parameter.now) }
{
    let key = parameter.name.copy(alloc)?;
    let key_origin = literal_at(alloc, frame, &parameter.place)?;
    let item = taken_of(alloc, place, parameter, &parameter.value)?;
    Ok(MarkedPair {
        key,
        key_origin,
        item,
    })
}

/// The value of a variable, all of which is made there.
pub fn variable_node(
    alloc: Global,
    here: &Origin,
    variable: &Variable,
) -> Result<MarkedNode, Memory>
    ensures { IfOk result
        (λ node. node ≡ made here.now (all_moved (λ _. here.now) variable.now.value)) }
{
    let value = move_to(alloc, &variable.value, here)?;
    let origin = here.copy(alloc)?;
    Ok(MarkedNode { origin, value })
}

/// The variables as an object.
pub fn variables_at(alloc: Global, frame: &Frame, place: &Place) -> Result<MarkedNode, Memory>
    ensures { IfOk result (λ node. node ≡ variables_at frame.now place.now) }
{
    let origin = made_at(alloc, frame, place)?;
    let mut pairs = List::new(alloc);
    for variable in frame.variables.all().as_slice() {
        pairs.push(variable_pair(alloc, &origin, variable)?)?;
    }
    let value = Value::Object(pairs);
    Ok(MarkedNode { origin, value })
}

/// A variable as a property.
fn variable_pair(alloc: Global, here: &Origin, variable: &Variable) -> Result<MarkedPair, Memory>
    ensures { IfOk result (λ pair. pair ≡ made_pair here.now variable.now) }
{
    let key = variable.name.copy(alloc)?;
    let key_origin = here.copy(alloc)?;
    let item = variable_node(alloc, here, variable)?;
    Ok(MarkedPair {
        key,
        key_origin,
        item,
    })
}
