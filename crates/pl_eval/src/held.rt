ghost use Rattle.std.specs.Prelude.{◌≡◌};
ghost use Rattle.pl_eval.specs.Gives.{Gives};
ghost use Rattle.pl_eval.specs.Held.{part_means, held_means, Holds};
ghost use Rattle.pl_eval.specs.Means.{Meaning, indexed};

use crate::fault::{EvalCode, EvalFault};
use crate::look_ups::{look_up, make};
use crate::names::Names;
use crate::parts::RootPart;
use crate::weighing::{weight_of, work_of};
use pl_base::{List, MarkedNode, Memory, Origin, Text, Value};
use std::alloc::Global;

/// What is held of an expression while the indices behind it are evaluated: a part of a root is
/// looked up once its last index is known, so that the root isn't copied.
#[derive(Drop)]
pub enum Held<'e> {
    /// What a path of indices finds in the root of that name.
    Part(&'e Text, List<Value>),
    /// The value.
    Node(MarkedNode),
}

/// A value that was made or copied counts as held, and as work.
fn charge<N: Names>(value: &Value, names: &N) -> Result<(), Memory> {
    let weight = weight_of(value);
    names.spend(weight, work_of(weight))
}

/// What a path finds in a root, or a Null that is made where it finds nothing. UnknownRoot comes
/// where there is no such root.
fn part<N: Names>(
    alloc: Global,
    root: &Text,
    path: &List<Value>,
    names: &N,
    here: &Origin,
) -> Result<MarkedNode, EvalFault>
    ensures { Gives result (part_means (N.known names.now) here.now root.now path.now) }
{
    match names.part(alloc, root, path.as_slice())? {
        RootPart::NoRoot => Err(EvalFault::Refused(EvalCode::UnknownRoot)),
        RootPart::Missing => Ok(make(alloc, Value::Null, here)?),
        RootPart::Found(node) => {
            charge(&node.value, names)?;
            Ok(node)
        }
    }
}

/// The value of what is held. UnknownRoot comes where there is no such root.
pub fn value_of<N: Names>(
    alloc: Global,
    held: Held<'_>,
    names: &N,
    here: &Origin,
) -> Result<MarkedNode, EvalFault>
    ensures { Gives result (held_means (N.known names.now) here.now held.entry) }
{
    match held {
        Held::Part(root, path) => part(alloc, root, &path, names, here),
        Held::Node(node) => {
            charge(&node.value, names)?;
            Ok(node)
        }
    }
}

/// A root with one index more behind those of its path. An unknown root comes before a fault of the
/// index.
fn lengthen<'e, N: Names>(
    alloc: Global,
    root: &'e Text,
    path: List<Value>,
    at: Result<MarkedNode, EvalFault>,
    names: &N,
    here: &Origin,
) -> Result<Held<'e>, EvalFault>
    ensures { (meant : Meaning) → Gives at meant → Holds (N.known names.now) here.now result
        (indexed here.now (part_means (N.known names.now) here.now root.now path) meant) }
{
    match at {
        Ok(at) => {
            let mut path = path;
            path.push(at.value)?;
            Ok(Held::Part(root, path))
        }
        Err(fault) => {
            part(alloc, root, &path, names, here)?;
            Err(fault)
        }
    }
}

/// What an index finds in what is held. A fault of what is held comes before one of the index.
pub fn look_behind<'e, N: Names>(
    alloc: Global,
    of: Held<'e>,
    at: Result<MarkedNode, EvalFault>,
    names: &N,
    here: &Origin,
) -> Result<Held<'e>, EvalFault>
    ensures { (meant : Meaning) → Gives at meant → Holds (N.known names.now) here.now result
        (indexed here.now (held_means (N.known names.now) here.now of.entry) meant) }
{
    match of {
        Held::Part(root, path) => lengthen(alloc, root, path, at, names, here),
        Held::Node(node) => {
            let at = at?;
            charge(&node.value, names)?;
            Ok(Held::Node(look_up(alloc, node.value, &at.value, here)?))
        }
    }
}
