ghost use Rattle.std.specs.Prelude.{◌≡◌, IfOk};
ghost use Rattle.std.specs.Prelude.{if◌then◌else◌};
ghost use Rattle.pl_frame.specs.Bindings.{crossed, parameter_of, parameters_of};
ghost use Rattle.pl_frame.specs.Trees.{moved};

use crate::frame::Parameter;
use crate::moving::reach;
use pl_base::{Crossing, ExactCopy, List, MarkedNode, Memory, SharedList};
use pl_params::{Bound, Declared, Param};
use std::alloc::Global;

/// The parameters of a frame that crossed these borders: each declared one with what is bound to
/// it, in order, as far as both lists go. What wasn't given is the default, a literal of the
/// frame's file. Memory comes too where a default is deeper than `DEEPEST`.
pub fn parameters_of(
    alloc: Global,
    crossings: &SharedList<Crossing>,
    declared: &Declared,
    bound: List<Bound>,
) -> Result<List<Parameter>, Memory>
    ensures { IfOk result (λ all. all ≡ parameters_of crossings.now declared.now bound) }
{
    let mut all = List::new(alloc);
    let mut rest = bound.into_vec();
    rest.reverse();
    while let Some(one) = rest.pop() {
        let Some(param) = declared.get(all.len()) else {
            return Ok(all);
        };
        all.push(parameter_of(alloc, crossings, param, one)?)?;
    }
    Ok(all)
}

/// A declared parameter with what is bound to it.
fn parameter_of(
    alloc: Global,
    crossings: &SharedList<Crossing>,
    param: &Param,
    one: Bound,
) -> Result<Parameter, Memory>
    ensures { IfOk result (λ parameter. parameter ≡ parameter_of crossings.now param.now one) }
{
    let Bound { name, value, given } = one;
    let place = param.place.copy(alloc)?;
    let value = standing(alloc, crossings, value, given)?;
    Ok(Parameter {
        name,
        place,
        value,
        given,
    })
}

/// The value that is bound: as it was given, or the default as a literal of the frame's file.
fn standing(
    alloc: Global,
    crossings: &SharedList<Crossing>,
    value: MarkedNode,
    given: bool,
) -> Result<MarkedNode, Memory>
    ensures { IfOk result
        (λ node. node ≡ (if given then value else moved (crossed crossings.now) value)) }
{
    if given {
        return Ok(value);
    }
    reach(alloc, &value, crossings)
}
