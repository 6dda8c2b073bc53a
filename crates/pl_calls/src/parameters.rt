ghost use Rattle.std.specs.Prelude.{List as list, Result as Answer};
ghost use Rattle.std.specs.Option.{option_copied};
ghost use Rattle.pl_params.specs.Gives as params;
ghost use Rattle.pl_params.specs.declared.fault.Complaint.{Complaint as ParamComplaint};
ghost use Rattle.pl_params.specs.declared.given.Bound.{Bound as BoundTo};
ghost use Rattle.pl_params.specs.declared.param.Param.{Param as Declaration};
ghost use Rattle.pl_directives.specs.Gives.{Gives};
ghost use Rattle.pl_calls.specs.Parameters.{parameter_told, declared_by, bound_to};

use pl_base::{List, Memory, Node, NodeBody};
use pl_budgets::{Budget, Meter};
use pl_directives::{Complaint, ExpandFault, ExpandProblem};
use pl_params::{Bound, Declared, Given, ParamFault, bind, declare};
use std::alloc::Global;

/// How many parameters one template declares: each name is compared with those before it. More are
/// want of memory.
const MOST_PARAMETERS: usize = 1_000;

/// Memory where more parameters are declared than may be.
fn judge_count(meter: &Meter, node: &Node) -> Result<(), Memory> {
    let count = match &node.body {
        NodeBody::Scalar(_) => 0,
        NodeBody::Seq(items) => items.len(),
        NodeBody::Map(pairs) => pairs.len(),
    };
    if count > MOST_PARAMETERS {
        return Err(meter.pass(Budget::Parameters));
    }
    Ok(())
}

/// Declarations, or what is wrong with them.
fn told_declared(found: Result<Declared, ParamFault>) -> Result<Declared, ExpandFault>
    ensures { (meant : Answer (list Declaration) ParamComplaint) → params.Gives found meant →
        Gives result (parameter_told meant) }
{
    match found {
        Ok(declared) => Ok(declared),
        Err(ParamFault::Refused(first)) => {
            let problem = ExpandProblem::Parameter(first.problem);
            let place = first.place;
            Err(ExpandFault::Refused(Complaint { problem, place }))
        }
        Err(ParamFault::Memory) => Err(ExpandFault::Memory),
    }
}

/// What is bound, or what is wrong with it.
fn told_bound(found: Result<List<Bound>, ParamFault>) -> Result<List<Bound>, ExpandFault>
    ensures { (meant : Answer (list BoundTo) ParamComplaint) → params.Gives found meant → Gives
        result (parameter_told meant) }
{
    match found {
        Ok(bound) => Ok(bound),
        Err(ParamFault::Refused(first)) => {
            let problem = ExpandProblem::Parameter(first.problem);
            let place = first.place;
            Err(ExpandFault::Refused(Complaint { problem, place }))
        }
        Err(ParamFault::Memory) => Err(ExpandFault::Memory),
    }
}

/// The declared parameters. X14 where a declaration is wrong. Memory comes too where more than
/// `MOST_PARAMETERS` are declared.
pub fn declared_by(
    alloc: Global,
    meter: &Meter,
    node: Option<&Node>,
) -> Result<Declared, ExpandFault>
    ensures { Gives result (declared_by (option_copied node.entry)) }
{
    match node {
        Some(node) => {
            judge_count(meter, node)?;
            told_declared(declare(alloc, node))
        }
        None => Ok(List::new(alloc)),
    }
}

/// What is bound to the declared parameters. X14 where something is given wrongly.
pub fn bound_to(
    alloc: Global,
    declared: &Declared,
    given: &List<Given>,
) -> Result<List<Bound>, ExpandFault>
    ensures { Gives result (bound_to declared.now given.now) }
{
    told_bound(bind(alloc, declared, given))
}
