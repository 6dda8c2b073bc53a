ghost use Rattle.std.specs.Prelude.{◌≡◌};
ghost use Rattle.pl_frame.specs.Origins.{literal_at};
ghost use Rattle.pl_directives.specs.Contents.{object_of, node_of, finished, absorbed};
ghost use Rattle.pl_directives.specs.Gives.{Gives};
ghost use Rattle.pl_directives.specs.Misfits.{problem_of};

use crate::contents::{add_items, add_pairs, as_items, as_pairs};
use crate::fault::{ExpandFault, ExpandProblem};
use crate::misfit::Misfit;
use crate::progress::{Content, Counted, Progress};
use crate::refusing::complain;
use pl_base::{List, MarkedNode, MarkedPair, Origin, Place, Value};
use pl_frame::{Frame, first_double, literal_at};
use std::alloc::Global;

/// Pairs as an object. X15 stands at the first key that stands before.
pub fn object_of(
    alloc: Global,
    origin: Origin,
    pairs: List<MarkedPair>,
) -> Result<MarkedNode, ExpandFault>
    ensures { Gives result (object_of origin pairs) }
{
    match first_double(alloc, &pairs)? {
        None => Ok(MarkedNode {
            origin,
            value: Value::Object(pairs),
        }),
        Some(place) => {
            let problem = ExpandProblem::KeyTwice;
            Err(ExpandFault::Refused(complain(alloc, problem, &place)?))
        }
    }
}

fn node_of(alloc: Global, origin: Origin, content: Content) -> Result<MarkedNode, ExpandFault>
    ensures { Gives result (node_of origin content) }
{
    match content {
        Content::Items(items) => Ok(MarkedNode {
            origin,
            value: Value::Array(items),
        }),
        Content::Pairs(pairs) => object_of(alloc, origin, pairs),
        Content::Unknown => object_of(alloc, origin, List::new(alloc)),
    }
}

/// The whole collection, which is written at a place.
pub fn finish(
    alloc: Global,
    frame: &Frame,
    place: &Place,
    progress: Progress,
) -> Result<Counted, ExpandFault>
    ensures { Gives result (finished (literal_at frame.now place.now) progress) }
{
    let origin = literal_at(alloc, frame, place)?;
    let node = node_of(alloc, origin, progress.content)?;
    Ok(Counted {
        node,
        count: progress.count,
    })
}

/// An expression's value in a directive's place: an array gives items, an object pairs. Else the
/// problem stands at a place.
pub fn absorb(
    alloc: Global,
    misfit: Misfit,
    place: &Place,
    node: MarkedNode,
    progress: Progress,
) -> Result<Progress, ExpandFault>
    ensures { Gives result (absorbed node (problem_of misfit) place.now progress) }
{
    let MarkedNode { origin: _, value } = node;
    match value {
        Value::Array(items) => {
            let progress = as_items(alloc, misfit, place, progress)?;
            add_items(alloc, place, items, progress)
        }
        Value::Object(pairs) => {
            let progress = as_pairs(alloc, misfit, place, progress)?;
            add_pairs(alloc, place, pairs, progress)
        }
        _ => Err(ExpandFault::Refused(complain(alloc, misfit.problem(), place)?)),
    }
}
