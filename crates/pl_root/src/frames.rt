ghost use Rattle.std.specs.Prelude.{◌≡◌, [], IfOk};
ghost use Rattle.std.specs.Option.{option_copied};
ghost use Rattle.pl_root.specs.Frames.{root_frame, first_frame, second_frame};

use pl_base::{Crossing, ExactCopy, FileKey, List, MarkedNode, Memory, Shared, SharedList, Value};
use pl_budgets::Meter;
use pl_frame::{Frame, Loop, Parameter, Variable, Variables, variables_of};
use std::alloc::Global;

/// No loops, and no crossings.
#[derive(Drop)]
struct Bare {
    loops: SharedList<Loop>,
    crossings: SharedList<Crossing>,
}

fn make_bare(alloc: Global) -> Result<Bare, Memory>
    ensures loops { IfOk result (λ bare. bare.loops ≡ []) }
    ensures crossings { IfOk result (λ bare. bare.crossings ≡ []) }
{
    let loops = SharedList::new(alloc)?;
    let crossings = SharedList::new(alloc)?;
    Ok(Bare { loops, crossings })
}

/// What names stand for at the root.
#[derive(Drop)]
struct Contexts {
    parameters: Shared<List<Parameter>>,
    variables: Shared<Variables>,
}

fn make_contexts(
    alloc: Global,
    parameters: &Shared<List<Parameter>>,
    variables: List<Variable>,
    meter: &Meter,
) -> Result<Contexts, Memory>
    ensures parameters { IfOk result (λ both. both.parameters ≡ parameters.now) }
    ensures variables { IfOk result (λ both. both.variables ≡ variables) }
{
    let meter = meter.share()?;
    let variables = Variables::new(variables, meter);
    let variables = Shared::new(alloc, variables)?;
    let parameters = parameters.copy(alloc)?;
    Ok(Contexts {
        parameters,
        variables,
    })
}

/// The frame of these.
fn framed(file: Shared<FileKey>, contexts: Contexts, bare: Bare) -> Frame
    ensures { result ≡ record {
      file = file;
      parameters = contexts.parameters;
      variables = contexts.variables;
      loops = bare.loops;
      crossings = bare.crossings;
    } }
{
    let Contexts {
        parameters,
        variables,
    } = contexts;
    let Bare { loops, crossings } = bare;
    Frame {
        file,
        parameters,
        variables,
        loops,
        crossings,
    }
}

/// The root file's frame, with these variables.
fn root_frame(
    alloc: Global,
    root: &FileKey,
    parameters: &Shared<List<Parameter>>,
    variables: List<Variable>,
    meter: &Meter,
) -> Result<Frame, Memory>
    ensures { IfOk result (λ frame. frame ≡ root_frame root.now parameters.now variables) }
{
    let file = Shared::new(alloc, root.copy(alloc)?)?;
    let contexts = make_contexts(alloc, parameters, variables, meter)?;
    let bare = make_bare(alloc)?;
    Ok(framed(file, contexts, bare))
}

/// The frame in which the root file's variables are expanded: its parameters and the run's own
/// variables. Memory where memory is wanting (Microsoft Learn, Azure Pipelines, "Template
/// expressions").
pub fn first_frame(
    alloc: Global,
    root: &FileKey,
    parameters: &Shared<List<Parameter>>,
    meter: &Meter,
) -> Result<Frame, Memory>
    ensures { IfOk result (λ frame. frame ≡ first_frame root.now parameters.now) }
{
    let variables = variables_of(alloc, &root.git_ref, &Value::Null)?;
    root_frame(alloc, root, parameters, variables, meter)
}

/// The frame in which the rest is expanded: as the first, with the file's own variables besides.
/// Memory where memory is wanting.
pub fn second_frame(
    alloc: Global,
    root: &FileKey,
    parameters: &Shared<List<Parameter>>,
    early: Option<&MarkedNode>,
    meter: &Meter,
) -> Result<Frame, Memory>
    ensures { IfOk result (λ frame. frame ≡ second_frame root.now parameters.now (option_copied
        early.entry)) }
{
    let variables = match early {
        Some(node) => variables_of(alloc, &root.git_ref, &node.value)?,
        None => variables_of(alloc, &root.git_ref, &Value::Null)?,
    };
    root_frame(alloc, root, parameters, variables, meter)
}
