ghost use Rattle.std.specs.Prelude.{◌≡◌, map, IfOk};
ghost use Rattle.pl_base.specs.declared.value.Value.{out-Value};
ghost use Rattle.pl_frame.specs.Names.{pair_object};
ghost use Rattle.pl_frame.specs.Origins.{literal_at};
ghost use Rattle.pl_directives.specs.Actions.{branch, if_asks, elseif_asks, else_asks, items_for};
ghost use Rattle.pl_directives.specs.Actions.{each_asks, asks, key_asks, computed_asks};
ghost use Rattle.pl_directives.specs.Gives.{Gives};
ghost use Rattle.pl_directives.specs.declared.action.Action.TheVariants.{Put};

use crate::action::{Action, Turns};
use crate::fault::{ExpandFault, ExpandProblem};
use crate::keys::{MadeKey, key_by};
use crate::progress::{Chain, Counted};
use crate::refusing::complain;
use crate::scalars::{counted_value_at, truth_at};
use pl_base::{ExactCopy, List, MarkedNode, MarkedPair, Memory, Place, Text, Value};
use pl_frame::{Frame, literal_at, pair_object};
use pl_template::{KeyForm, ScalarForm, key_form};
use std::alloc::Global;

fn branch(truth: bool) -> Action
    ensures { result ≡ branch truth }
{
    if truth {
        Action::Run(Chain::Taken)
    } else {
        Action::Pass(Chain::Waiting)
    }
}

/// `if`: the value in its place where the condition is true.
fn if_asks(alloc: Global, frame: &Frame, place: &Place, text: &Text) -> Result<Action, ExpandFault>
    ensures { Gives result (if_asks frame.now place.now text.now) }
{
    let truth = truth_at(alloc, frame, place, text)?;
    Ok(branch(truth))
}

/// `elseif`: the same, unless a branch was taken. X6 where none may follow.
fn elseif_asks(
    alloc: Global,
    chain: Chain,
    frame: &Frame,
    place: &Place,
    text: &Text,
) -> Result<Action, ExpandFault>
    ensures { Gives result (elseif_asks chain frame.now place.now text.now) }
{
    match chain {
        Chain::Closed => {
            let first = complain(alloc, ExpandProblem::ElseAlone, place)?;
            Err(ExpandFault::Refused(first))
        }
        Chain::Waiting => if_asks(alloc, frame, place, text),
        Chain::Taken => Ok(Action::Pass(Chain::Taken)),
    }
}

/// `else`: the value in its place, unless a branch was taken. X6 where none may follow.
fn else_asks(alloc: Global, chain: Chain, place: &Place) -> Result<Action, ExpandFault>
    ensures { Gives result (else_asks chain place.now) }
{
    match chain {
        Chain::Closed => {
            let first = complain(alloc, ExpandProblem::ElseAlone, place)?;
            Err(ExpandFault::Refused(first))
        }
        Chain::Waiting => Ok(Action::Run(Chain::Closed)),
        Chain::Taken => Ok(Action::Pass(Chain::Closed)),
    }
}

/// The pairs of an object as the items of a loop.
fn pair_objects(
    alloc: Global,
    frame: &Frame,
    place: &Place,
    pairs: List<MarkedPair>,
) -> Result<List<MarkedNode>, Memory>
    ensures { IfOk result (λ items. items ≡ map (pair_object frame.now place.now) pairs) }
{
    let mut items = List::new(alloc);
    for pair in pairs.into_vec() {
        items.push(pair_object(alloc, frame, place, pair)?)?;
    }
    Ok(items)
}

/// What a loop goes over. X7 where the value is neither an array nor an object.
fn items_for(
    alloc: Global,
    frame: &Frame,
    place: &Place,
    name: &Text,
    one: Counted,
) -> Result<Action, ExpandFault>
    ensures { Gives result (items_for (out-Value one.node.value) frame.now place.now name.now
        one.count) }
{
    let Counted { node, count } = one;
    let MarkedNode { origin: _, value } = node;
    match value {
        Value::Array(items) => {
            let name = name.copy(alloc)?;
            Ok(Action::Repeat(Turns { name, items }, count))
        }
        Value::Object(pairs) => {
            let items = pair_objects(alloc, frame, place, pairs)?;
            let name = name.copy(alloc)?;
            Ok(Action::Repeat(Turns { name, items }, count))
        }
        _ => {
            let first = complain(alloc, ExpandProblem::EachOverScalar, place)?;
            Err(ExpandFault::Refused(first))
        }
    }
}

/// `each`: the value once for each item of an array, or for each pair of an object.
fn each_asks(
    alloc: Global,
    frame: &Frame,
    place: &Place,
    name: &Text,
    text: &Text,
    count: u32,
) -> Result<Action, ExpandFault>
    ensures { Gives result (each_asks frame.now place.now name.now text.now count) }
{
    let one = counted_value_at(alloc, frame, place, text, count)?;
    items_for(alloc, frame, place, name, one)
}

/// A pair whose key expressions give.
fn computed_asks(
    alloc: Global,
    form: &ScalarForm,
    frame: &Frame,
    place: &Place,
) -> Result<Action, ExpandFault>
    ensures { Gives result (computed_asks form.now frame.now place.now) }
{
    let MadeKey { key, origin } = key_by(alloc, form, frame, place)?;
    Ok(Action::Put(key, origin))
}

/// A pair whose key is written.
fn plain_asks(alloc: Global, key: &Text, frame: &Frame, place: &Place) -> Result<Action, Memory>
    ensures { IfOk result (λ action. action ≡ Put key.now (literal_at frame.now place.now)) }
{
    frame.keep_text(key)?;
    let key = key.copy(alloc)?;
    let origin = literal_at(alloc, frame, place)?;
    Ok(Action::Put(key, origin))
}

/// What a key asks for, behind a chain of branches and at a count. X5 where a directive is out of
/// its form.
pub fn key_asks(
    alloc: Global,
    key: &Text,
    frame: &Frame,
    place: &Place,
    chain: Chain,
    count: u32,
) -> Result<Action, ExpandFault>
    ensures { Gives result (key_asks key.now frame.now place.now chain count) }
{
    frame.read_text(key)?;
    match key_form(alloc, key)? {
        KeyForm::Plain => Ok(plain_asks(alloc, key, frame, place)?),
        KeyForm::Computed(form) => computed_asks(alloc, &form, frame, place),
        KeyForm::If(text) => if_asks(alloc, frame, place, &text),
        KeyForm::ElseIf(text) => elseif_asks(alloc, chain, frame, place, &text),
        KeyForm::Else => else_asks(alloc, chain, place),
        KeyForm::Each(name, text) => each_asks(alloc, frame, place, &name, &text, count),
        KeyForm::Insert => Ok(Action::Insert),
        KeyForm::Bad => {
            let first = complain(alloc, ExpandProblem::BadDirective, place)?;
            Err(ExpandFault::Refused(first))
        }
    }
}
