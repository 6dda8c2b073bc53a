ghost use Rattle.std.specs.Prelude.{◌≡◌, ◌∷◌, [], IfOk};
ghost use Rattle.pl_base.specs.declared.value.MarkedPair.{MarkedPair as Pair};
ghost use Rattle.pl_base.specs.declared.value.Value.{Str};
ghost use Rattle.pl_eval.specs.LookUps.{made};
ghost use Rattle.pl_frame.specs.Names.{within, pair_object, named};

use crate::frame::{Frame, Loop};
use crate::origins::made_at;
use pl_base::{ExactCopy, List, MarkedNode, MarkedPair, Memory, Origin, Place, Text, Value};
use std::alloc::Global;

/// The frame with one loop more inside all others: its name, and the item of one of its turns. All
/// else is shared with the frame. Memory where memory is wanting.
pub fn within(alloc: Global, frame: &Frame, name: &Text, item: MarkedNode) -> Result<Frame, Memory>
    ensures { IfOk result (λ inner. inner ≡ within frame.now name.now item) }
{
    let name = name.copy(alloc)?;
    let loops = frame.loops.with(alloc, Loop { name, item })?;
    Ok(Frame {
        file: frame.file.copy(alloc)?,
        parameters: frame.parameters.copy(alloc)?,
        variables: frame.variables.copy(alloc)?,
        loops,
        crossings: frame.crossings.copy(alloc)?,
    })
}

/// A pair of an object that a loop goes over, as an object of its key and its value: the object and
/// its two keys are made at the loop's place, the key's text comes from where the key does, and the
/// value stays as it is. Memory where memory is wanting.
pub fn pair_object(
    alloc: Global,
    frame: &Frame,
    place: &Place,
    pair: MarkedPair,
) -> Result<MarkedNode, Memory>
    ensures { IfOk result (λ node. node ≡ pair_object frame.now place.now pair) }
{
    let origin = made_at(alloc, frame, place)?;
    let key = MarkedNode {
        origin: pair.key_origin,
        value: Value::Str(pair.key),
    };
    let mut pairs = List::new(alloc);
    pairs.push(property(alloc, &origin, "key", key)?)?;
    pairs.push(property(alloc, &origin, "value", pair.item)?)?;
    Ok(MarkedNode {
        origin,
        value: Value::Object(pairs),
    })
}

/// A property of that name, whose key has that origin, and what it holds. Memory where memory is
/// wanting.
pub fn property(
    alloc: Global,
    origin: &Origin,
    name: &str,
    item: MarkedNode,
) -> Result<MarkedPair, Memory>
    ensures { IfOk result (λ pair. pair ≡ named origin.now name.now item) }
{
    let key = Text::from_str(alloc, name)?;
    let key_origin = origin.copy(alloc)?;
    Ok(MarkedPair {
        key,
        key_origin,
        item,
    })
}
