ghost use Rattle.std.specs.Prelude.{◌≡◌, ◌++◌, ◌∷◌, [], map, IfOk};
ghost use Rattle.pl_calls.specs.Calls.{given_across};
ghost use Rattle.pl_calls.specs.Frames.{inner_frame, parameters_for, template_seen, framed};
ghost use Rattle.pl_calls.specs.Frames.{framed_by};
ghost use Rattle.pl_calls.specs.Seeing.{pairs_of};
ghost use Rattle.pl_directives.specs.Gives.{Gives};

use crate::call::given_across;
use crate::parameters::{bound_to, declared_by};
use crate::weighing::{keep_parameters, work_of_calling};
use pl_base::{
    Crossing, ExactCopy, FileKey, List, MarkedPair, Memory, NodePair, Shared, SharedList,
};
use pl_budgets::Meter;
use pl_directives::ExpandFault;
use pl_frame::{Frame, Parameter, Variables, parameters_of};
use pl_params::{Given, under};
use std::alloc::Global;

/// What arguments give across a border.
fn given_by(
    alloc: Global,
    border: &Crossing,
    arguments: Option<&List<MarkedPair>>,
) -> Result<List<Given>, Memory>
    ensures { IfOk result (λ all. all ≡ map (given_across border.now) (pairs_of
        arguments.entry)) }
{
    match arguments {
        Some(pairs) => all_given(alloc, border, pairs),
        None => Ok(List::new(alloc)),
    }
}

fn all_given(
    alloc: Global,
    border: &Crossing,
    pairs: &List<MarkedPair>,
) -> Result<List<Given>, Memory>
    ensures { IfOk result (λ all. all ≡ map (given_across border.now) pairs.now) }
{
    let mut all = List::new(alloc);
    for pair in pairs.as_slice() {
        all.push(given_across(alloc, border, pair)?)?;
    }
    Ok(all)
}

/// The parameters that a template's pairs declare, bound to what is given.
fn parameters_for(
    alloc: Global,
    meter: &Meter,
    pairs: &List<NodePair>,
    crossings: &SharedList<Crossing>,
    given: &List<Given>,
) -> Result<List<Parameter>, ExpandFault>
    ensures { Gives result (parameters_for pairs.now crossings.now given.now) }
{
    let declared = declared_by(alloc, meter, under("parameters", pairs))?;
    let bound = bound_to(alloc, &declared, given)?;
    Ok(parameters_of(alloc, crossings, &declared, bound)?)
}

/// A frame without loops.
fn inner_frame(
    alloc: Global,
    file: &Shared<FileKey>,
    parameters: Shared<List<Parameter>>,
    variables: &Shared<Variables>,
    crossings: &SharedList<Crossing>,
) -> Result<Frame, Memory>
    ensures { IfOk result (λ frame. frame ≡ inner_frame file.now parameters variables.now
        crossings.now) }
{
    let loops = SharedList::new(alloc)?;
    Ok(Frame {
        file: file.copy(alloc)?,
        parameters,
        variables: variables.copy(alloc)?,
        loops,
        crossings: crossings.copy(alloc)?,
    })
}

/// The borders that a template is behind.
fn with_border(
    alloc: Global,
    crossings: &SharedList<Crossing>,
    border: &Crossing,
) -> Result<SharedList<Crossing>, Memory>
    ensures { IfOk result (λ all. all ≡ crossings.now ++ border.now ∷ []) }
{
    crossings.with(alloc, border.copy(alloc)?)
}

/// A template that is called: its file, and its pairs.
#[derive(Drop)]
pub struct Template<'t> {
    pub file: &'t Shared<FileKey>,
    pub pairs: &'t List<NodePair>,
}

/// The frame of a template, behind these borders.
fn framed(
    alloc: Global,
    template: &Template<'_>,
    variables: &Shared<Variables>,
    given: &List<Given>,
    crossings: &SharedList<Crossing>,
) -> Result<Frame, ExpandFault>
    ensures { Gives result (framed (template_seen template.now) variables.now given.now
        crossings.now) }
{
    let meter = variables.meter();
    meter.work(work_of_calling(template.pairs, given))?;
    let parameters = parameters_for(alloc, meter, template.pairs, crossings, given)?;
    keep_parameters(meter, &parameters)?;
    let parameters = Shared::new(alloc, parameters)?;
    Ok(inner_frame(alloc, template.file, parameters, variables, crossings)?)
}

/// The frame of a template, across a border behind others: its parameters are what it declares,
/// bound to the arguments, and its variables those. X14 where a declaration is wrong, or an
/// argument doesn't fit. Memory comes too where an argument is deeper than `DEEPEST`.
pub fn framed_by(
    alloc: Global,
    template: &Template<'_>,
    variables: &Shared<Variables>,
    arguments: Option<&List<MarkedPair>>,
    border: &Crossing,
    crossings: &SharedList<Crossing>,
) -> Result<Frame, ExpandFault>
    ensures { Gives result (framed_by (template_seen template.now) variables.now (pairs_of
        arguments.entry) border.now crossings.now) }
{
    let given = given_by(alloc, border, arguments)?;
    let all = with_border(alloc, crossings, border)?;
    framed(alloc, template, variables, &given, &all)
}
