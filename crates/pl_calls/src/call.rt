ghost use Rattle.std.specs.Prelude.{◌≡◌, [], IfOk};
ghost use Rattle.std.specs.Option.{option_copied};
ghost use Rattle.pl_base.specs.declared.value.Value.{out-Value};
ghost use Rattle.pl_directives.specs.Gives.{Gives};
ghost use Rattle.pl_calls.specs.Calls.{path_text, pairs_from, arguments_at, arguments_behind};
ghost use Rattle.pl_calls.specs.Calls.{call_with, call_of, given_across};
ghost use Rattle.pl_calls.specs.Seeing.{GivesPairs, GivesFound, GivesCall, pairs_of};

use pl_base::{
    Crossing, ExactCopy, List, MarkedNode, MarkedPair, Memory, Place, SharedList, Text, Value,
};
use pl_directives::{ExpandFault, ExpandProblem, refuse};
use pl_expr::to_text;
use pl_frame::cross;
use pl_params::Given;
use std::alloc::Global;

/// An item that calls a template: where it stands, the text of its path, the borders that the path
/// crossed, and the arguments, where there are any.
#[derive(Drop)]
pub struct Call<'i> {
    pub at: &'i Place,
    pub path: Text,
    pub crossings: &'i SharedList<Crossing>,
    pub arguments: Option<&'i List<MarkedPair>>,
}

/// The text of a path. X9 where it is a list or a mapping.
pub fn path_text(alloc: Global, node: &MarkedNode) -> Result<Text, ExpandFault>
    ensures { Gives result (path_text node.now) }
{
    match &node.value {
        Value::Array(_) | Value::Object(_) => refuse(
            alloc,
            ExpandProblem::WrongKind,
            &node.origin.source,
        ),
        atom => Ok(to_text(alloc, atom)?),
    }
}

/// The pairs of a mapping. X9 where it is none.
pub fn pairs_from(alloc: Global, node: &MarkedNode) -> Result<&List<MarkedPair>, ExpandFault>
    ensures { GivesPairs result (pairs_from (out-Value node.now.value) node.now) }
{
    match &node.value {
        Value::Object(pairs) => Ok(pairs),
        _ => refuse(alloc, ExpandProblem::WrongKind, &node.origin.source),
    }
}

/// The arguments of a pair beside a path. X9 where its key isn't `parameters`, or they are no
/// mapping.
pub fn arguments_at(alloc: Global, pair: &MarkedPair) -> Result<&List<MarkedPair>, ExpandFault>
    ensures { GivesPairs result (arguments_at pair.now) }
{
    if pair.key.as_str() == "parameters" {
        pairs_from(alloc, &pair.item)
    } else {
        refuse(alloc, ExpandProblem::WrongKind, &pair.key_origin.source)
    }
}

/// The arguments among the pairs beside a path.
fn arguments_in(
    alloc: Global,
    pairs: &[MarkedPair],
) -> Result<Option<&List<MarkedPair>>, ExpandFault>
    ensures { GivesFound result (arguments_behind [] pairs.now) }
{
    let mut found = None;
    for pair in pairs {
        found = Some(arguments_at(alloc, pair)?);
    }
    Ok(found)
}

/// A call at a place, of these pairs.
fn call_with<'i>(
    alloc: Global,
    at: &'i Place,
    path: &'i MarkedNode,
    pairs: &'i [MarkedPair],
) -> Result<Call<'i>, ExpandFault>
    ensures { GivesCall result (call_with at.now path.now pairs.now) }
{
    let text = path_text(alloc, path)?;
    let arguments = arguments_in(alloc, pairs)?;
    Ok(Call {
        at,
        path: text,
        crossings: &path.origin.crossings,
        arguments,
    })
}

/// The call that an item is. X9 where its path is a list or a mapping, where its arguments are no
/// mapping, and at another key.
pub fn call_of(alloc: Global, item: &MarkedNode) -> Result<Call<'_>, ExpandFault>
    ensures { GivesCall result (call_of item.now) }
{
    let at = &item.origin.source;
    match &item.value {
        Value::Object(pairs) => match pairs.as_slice() {
            [path, rest @ ..] => call_with(alloc, at, &path.item, rest),
            [] => refuse(alloc, ExpandProblem::WrongKind, at),
        },
        _ => refuse(alloc, ExpandProblem::WrongKind, at),
    }
}

/// What an argument gives, across a border. Memory comes too where it is deeper than `DEEPEST`.
pub fn given_across(alloc: Global, border: &Crossing, pair: &MarkedPair) -> Result<Given, Memory>
    ensures { IfOk result (λ given. given ≡ given_across border.now pair.now) }
{
    let value = cross(alloc, &pair.item, border)?;
    let name = pair.key.copy(alloc)?;
    let place = pair.key_origin.source.copy(alloc)?;
    Ok(Given { name, place, value })
}
