ghost use Rattle.std.specs.Prelude.{◌≡◌};
ghost use Rattle.pl_frame.specs.Origins.{literal_at};
ghost use Rattle.pl_calls.specs.Gives.{GivesFrom};
ghost use Rattle.pl_directives.specs.Contents.{with_chain, with_count};
ghost use Rattle.pl_directives.specs.declared.progress.Chain.TheVariants.{Closed};
ghost use Rattle.pl_directives.specs.declared.progress.Content.TheVariants.{Pairs};
ghost use Rattle.pl_recursion.specs.Following.{scope_of};
ghost use Rattle.pl_recursion.specs.Levels.{followed};
ghost use Rattle.pl_recursion.specs.Putting.{add_item, splice, spread};

use crate::following::follow;
use crate::scope::Scope;
use pl_base::{List, MarkedNode, MarkedPair, Place, Value};
use pl_calls::{Files, Reach};
use pl_directives::{
    Chain, Content, Counted, ExpandFault, Progress, add_items, object_of, put_item,
};
use pl_frame::literal_at;
use std::alloc::Global;

/// An item behind those that are there: a call is followed.
#[cycle(expansion)]
#[tactic(auto, using(pl_calls::proofs::Alone::gives_alone))]
pub fn add_item<F: Files>(
    alloc: Global,
    scope: Scope<'_>,
    item: MarkedNode,
    progress: Progress,
    reach: &mut Reach<'_, F>,
) -> Result<Progress, ExpandFault>
    ensures added { GivesFrom F.files result reach.old reach.new (λ opens. add_item (scope_of
        (followed scope.entry.at.calls opens) scope.entry.frame.now scope.entry.at.region) item
        progress) }
{
    match scope.at.region.call_form(&item) {
        Some(form) => {
            let more = follow(alloc, &item, scope, form, progress.count, reach)?;
            let progress = progress.counting(more.count);
            add_items(alloc, &item.origin.source, more.items, progress)
        }
        None => put_item(alloc, item, progress),
    }
}

/// An item behind those that are there, which ends a chain of branches.
#[cycle(expansion)]
pub fn put_alone<F: Files>(
    alloc: Global,
    scope: Scope<'_>,
    one: Counted,
    progress: Progress,
    reach: &mut Reach<'_, F>,
) -> Result<Progress, ExpandFault>
    ensures added { GivesFrom F.files result reach.old reach.new (λ opens. add_item (scope_of
        (followed scope.entry.at.calls opens) scope.entry.frame.now scope.entry.at.region) one.node
        (with_chain Closed (with_count one.count progress))) }
{
    let Counted { node, count } = one;
    let progress = progress.at(Chain::Closed, count);
    add_item(alloc, scope, node, progress, reach)
}

/// What directives alone put in an item's place, behind the items that are there: items as they
/// are, pairs as one item, and nothing where nothing came of it.
#[cycle(expansion)]
#[tactic(auto, using(pl_calls::proofs::Alone::gives_alone))]
pub fn splice<F: Files>(
    alloc: Global,
    scope: Scope<'_>,
    place: &Place,
    content: Content,
    progress: Progress,
    reach: &mut Reach<'_, F>,
) -> Result<Progress, ExpandFault>
    ensures added { GivesFrom F.files result reach.old reach.new (λ opens. splice (scope_of
        (followed scope.entry.at.calls opens) scope.entry.frame.now scope.entry.at.region)
        (literal_at scope.entry.frame.now place.now) content progress) }
{
    match content {
        Content::Unknown => Ok(progress),
        Content::Items(items) => add_items(alloc, place, items, progress),
        Content::Pairs(pairs) => { splice_pairs(alloc, scope, place, pairs, progress, reach) }
    }
}

#[cycle(expansion)]
fn splice_pairs<F: Files>(
    alloc: Global,
    scope: Scope<'_>,
    place: &Place,
    pairs: List<MarkedPair>,
    progress: Progress,
    reach: &mut Reach<'_, F>,
) -> Result<Progress, ExpandFault>
    ensures added { GivesFrom F.files result reach.old reach.new (λ opens. splice (scope_of
        (followed scope.entry.at.calls opens) scope.entry.frame.now scope.entry.at.region)
        (literal_at scope.entry.frame.now place.now) (Pairs pairs) progress) }
{
    if pairs.is_empty() {
        return Ok(progress);
    }
    let origin = literal_at(alloc, scope.frame, place)?;
    let item = object_of(alloc, origin, pairs)?;
    add_item(alloc, scope, item, progress, reach)
}

/// An expression's value as an item: an array's items stand in its place.
#[cycle(expansion)]
#[tactic(auto, using(pl_calls::proofs::Alone::gives_alone))]
pub fn spread<F: Files>(
    alloc: Global,
    scope: Scope<'_>,
    node: MarkedNode,
    progress: Progress,
    reach: &mut Reach<'_, F>,
) -> Result<Progress, ExpandFault>
    ensures added { GivesFrom F.files result reach.old reach.new (λ opens. spread (scope_of
        (followed scope.entry.at.calls opens) scope.entry.frame.now scope.entry.at.region) node
        progress) }
{
    let MarkedNode { origin, value } = node;
    match value {
        Value::Array(items) => add_items(alloc, &origin.source, items, progress),
        value => {
            let node = MarkedNode { origin, value };
            add_item(alloc, scope, node, progress, reach)
        }
    }
}
