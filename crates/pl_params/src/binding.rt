ghost use Rattle.std.specs.Prelude.{◌≡◌, [], Some, IfOk};
ghost use Rattle.std.specs.Option.{option_copied};
ghost use Rattle.pl_params.specs.declared.fault.ParamProblem.TheVariants.{Missing, NotOfType};
ghost use Rattle.pl_params.specs.declared.fault.ParamProblem.TheVariants.{NotAllowed};
ghost use Rattle.pl_params.specs.Binding.{bound, bound_default, bound_from, bound_param};
ghost use Rattle.pl_params.specs.Binding.{unexpected, binds};
ghost use Rattle.pl_params.specs.Complaints.{complaint, found_of};
ghost use Rattle.pl_params.specs.Gives.{Gives};
ghost use Rattle.pl_params.specs.Names.{Indexes};
ghost use Rattle.pl_params.specs.Steps.{in_turn};

use crate::complaints::bad_default;
use crate::fault::{Complaint, ParamFault, ParamProblem};
use crate::given::{Bound, Given};
use crate::judging::{Judged, judge, written};
use crate::names::{Places, first_named, has_name, places_of_given, places_of_params};
use crate::param::{Declared, Param};
use crate::refusing::{complain, found_value};
use pl_base::{ExactCopy, List, MarkedNode, Memory};
use std::alloc::Global;

/// What is bound to the declared parameters, in their order (Microsoft Learn, Azure Pipelines,
/// "Template parameters").
///
/// Names are compared without regard to the case of ASCII's letters, and of several that are given
/// under one name the first counts. What is given is read by the parameter's type and keeps its
/// origin: a string takes an atom's text, a boolean and a number also a text that is one, a list of
/// items also an empty scalar for the empty list. A parameter that isn't given has its default,
/// whose nodes come from their own places in the template, across no border, with `given` false.
///
/// A fault is first P5, at the first given name that no parameter has; then that of the first
/// parameter that has one: P4 at the declaration, where nothing is given and there is no default;
/// P6 at the given name, where what is given isn't of the type; P7 there, where it isn't among the
/// allowed values, both sides as the type reads them. P3 comes, at the default, only for parameters
/// that `declare` never gives. Memory may come at any time.
pub fn bind(
    alloc: Global,
    declared: &Declared,
    given: &List<Given>,
) -> Result<List<Bound>, ParamFault>
    ensures { Gives result (binds declared.now given.now) }
{
    match unexpected(alloc, declared, given)? {
        Some(one) => {
            let problem = ParamProblem::Unexpected(one.name.copy(alloc)?);
            Err(ParamFault::Refused(complain(alloc, problem, &one.place)?))
        }
        None => bind_all(alloc, declared, given),
    }
}

/// The first that is given for no parameter.
#[tactic(auto, using(pl_base::proofs::Finding::find_drop_yes, pl_base::proofs::Finding::find_drop_no))]
fn unexpected<'g>(
    alloc: Global,
    declared: &Declared,
    given: &'g List<Given>,
) -> Result<Option<&'g Given>, Memory>
    ensures { IfOk result (λ found. option_copied found ≡ unexpected declared.now given.now) }
{
    let places = places_of_params(alloc, declared)?;
    for one in given.as_slice() {
        if !has_name(alloc, declared, &places, &one.name)? {
            return Ok(Some(one));
        }
    }
    Ok(None)
}

fn bind_all(
    alloc: Global,
    declared: &Declared,
    given: &List<Given>,
) -> Result<List<Bound>, ParamFault>
    ensures { Gives result (in_turn (bound_param given.now) [] declared.now) }
{
    let places = places_of_given(alloc, given)?;
    let mut all = List::new(alloc);
    for param in declared.as_slice() {
        let bound = bind_param(alloc, param, given, &places)?;
        all.push(bound)?;
    }
    Ok(all)
}

/// What is bound to a parameter: what is given under its name, or its default.
fn bind_param(
    alloc: Global,
    param: &Param,
    given: &List<Given>,
    places: &Places,
) -> Result<Bound, ParamFault>
    requires { Indexes (λ one. one.name) given.now places.now }
    ensures { Gives result (bound_param given.now [] param.now) }
{
    match first_named(alloc, given, places, &param.name)? {
        Some(given) => bind_given(alloc, param, given),
        None => bind_default(alloc, param),
    }
}

fn bind_given(alloc: Global, param: &Param, given: &Given) -> Result<Bound, ParamFault>
    ensures { Gives result (bound_from param.now (Some given.now)) }
{
    let value = given.value.copy(alloc)?;
    match judge(alloc, param.kind, &param.values, value)? {
        Judged::Fits(value) => Ok(bound(alloc, true, param, value)?),
        Judged::NotOfType => Err(ParamFault::Refused(not_of_type(alloc, param, given)?)),
        Judged::NotAllowed => Err(ParamFault::Refused(not_allowed(alloc, param, given)?)),
    }
}

fn bind_default(alloc: Global, param: &Param) -> Result<Bound, ParamFault>
    ensures { Gives result (bound_default param.now param.now.default) }
{
    let Some(node) = &param.default else {
        return Err(ParamFault::Refused(missing(alloc, param)?));
    };
    match judge(alloc, param.kind, &param.values, written(alloc, node)?)? {
        Judged::Fits(value) => Ok(bound(alloc, false, param, value)?),
        Judged::NotOfType | Judged::NotAllowed => {
            let first = bad_default(alloc, param.name.as_str(), param.kind, node)?;
            Err(ParamFault::Refused(first))
        }
    }
}

/// A value under the parameter's name.
fn bound(alloc: Global, given: bool, param: &Param, value: MarkedNode) -> Result<Bound, Memory>
    ensures { IfOk result (λ one. one ≡ bound given param.now value) }
{
    let name = param.name.copy(alloc)?;
    Ok(Bound { name, value, given })
}

fn missing(alloc: Global, param: &Param) -> Result<Complaint, Memory>
    ensures { IfOk result (λ made. made ≡ complaint (Missing param.now.name param.now.kind)
        param.now.place) }
{
    let name = param.name.copy(alloc)?;
    complain(alloc, ParamProblem::Missing(name, param.kind), &param.place)
}

fn not_of_type(alloc: Global, param: &Param, given: &Given) -> Result<Complaint, Memory>
    ensures { IfOk result (λ made. made ≡
        complaint (NotOfType param.now.name param.now.kind (found_of given.now.value.value))
        given.now.place) }
{
    let name = param.name.copy(alloc)?;
    let found = found_value(alloc, &given.value.value)?;
    let problem = ParamProblem::NotOfType(name, param.kind, found);
    complain(alloc, problem, &given.place)
}

fn not_allowed(alloc: Global, param: &Param, given: &Given) -> Result<Complaint, Memory>
    ensures { IfOk result (λ made. made ≡
        complaint (NotAllowed param.now.name (found_of given.now.value.value)) given.now.place) }
{
    let name = param.name.copy(alloc)?;
    let found = found_value(alloc, &given.value.value)?;
    complain(alloc, ParamProblem::NotAllowed(name, found), &given.place)
}
