ghost use Rattle.std.specs.Prelude.{◌≡◌, map};
ghost use Rattle.pl_calls.specs.Gives.{GivesFrom};
ghost use Rattle.pl_directives.specs.Gives.{Gives};
ghost use Rattle.pl_directives.specs.Misfits.{problem_of};
ghost use Rattle.pl_directives.specs.Regions.{is_path};
ghost use Rattle.pl_directives.specs.declared.action.Action.TheVariants.{Put};
ghost use Rattle.pl_recursion.specs.Expanding.{part_of, entry_of, expanded, body, turns, done};
ghost use Rattle.pl_recursion.specs.Expanding.{pair_behind, pairs_behind, item_behind};
ghost use Rattle.pl_recursion.specs.Expanding.{items_behind, mapping_item, path_by, value_under};
ghost use Rattle.pl_recursion.specs.Following.{scope_of};
ghost use Rattle.pl_recursion.specs.Levels.{followed};

use crate::facets::manner_of;
use crate::putting::{add_item, put_alone, splice, spread};
use crate::scalars::{expand_scalar, path_at};
use crate::scope::Scope;
use crate::settling::settle;
use pl_base::{ExactCopy, List, MarkedPair, Node, NodeBody, NodePair, Place, Text};
use pl_calls::{Files, Reach};
use pl_directives::{
    Action, Chain, Counted, ExpandFault, ExpandProblem, Kind, MadeKey, Manner, Misfit, Progress,
    Turns, absorb, as_items, as_pairs, begin, begin_spliced, complain, enter, finish, given_value,
    judge_key, key_asks, put_pair, told,
};
use pl_frame::{Frame, within};
use std::alloc::Global;

/// A node as a value in a frame, where it stands: a scalar, a sequence's items or a mapping's
/// pairs.
#[cycle(expansion)]
#[tactic(auto, using(pl_calls::proofs::Alone::gives_alone))]
pub fn expand_node<F: Files>(
    alloc: Global,
    node: &Node,
    scope: Scope<'_>,
    count: u32,
    reach: &mut Reach<'_, F>,
) -> Result<Counted, ExpandFault>
    ensures gives { GivesFrom F.files result reach.old reach.new (λ opens. expanded node.now
        (scope_of (followed scope.entry.at.calls opens) scope.entry.frame.now scope.entry.at.region)
        count) }
{
    match &node.body {
        NodeBody::Scalar(text) => { expand_scalar(alloc, text, scope, &node.place, count, reach) }
        NodeBody::Seq(items) => {
            let count = enter(alloc, &node.place, count)?;
            let begun = begin(alloc, Kind::Items, Chain::Closed, count);
            let progress = fill_items(alloc, items, scope.below()?, begun, reach)?;
            finish(alloc, scope.frame, &node.place, progress)
        }
        NodeBody::Map(pairs) => {
            let count = enter(alloc, &node.place, count)?;
            let begun = begin(alloc, Kind::Pairs, Chain::Closed, count);
            let progress = fill_pairs(alloc, pairs, scope.below()?, begun, reach)?;
            finish(alloc, scope.frame, &node.place, progress)
        }
    }
}

/// A node in a directive's place: its items or its pairs are put behind what is there.
#[cycle(expansion)]
fn fill_body<F: Files>(
    alloc: Global,
    node: &Node,
    misfit: Misfit,
    scope: Scope<'_>,
    progress: Progress,
    reach: &mut Reach<'_, F>,
) -> Result<Progress, ExpandFault>
    ensures gives { GivesFrom F.files result reach.old reach.new (λ opens. body (part_of node.now)
        (problem_of misfit) (scope_of (followed scope.entry.at.calls opens) scope.entry.frame.now
        scope.entry.at.region) progress) }
{
    let place = &node.place;
    let count = progress.count;
    match &node.body {
        NodeBody::Scalar(text) => {
            let called = told(&progress.content);
            let region = scope.at.region;
            let one = given_value(alloc, text, scope.frame, place, count, region, called)?;
            let one = settle(alloc, one, scope, reach)?;
            let begun = progress.at(Chain::Closed, one.count);
            let after = absorb(alloc, misfit, place, one.node, begun)?;
            Ok(after.chained(Chain::Closed))
        }
        NodeBody::Seq(items) => {
            let count = enter(alloc, place, count)?;
            let begun = as_items(alloc, misfit, place, progress.at(Chain::Closed, count))?;
            let after = fill_items(alloc, items, scope.below()?, begun, reach)?;
            Ok(after.chained(Chain::Closed))
        }
        NodeBody::Map(pairs) => {
            let count = enter(alloc, place, count)?;
            let begun = as_pairs(alloc, misfit, place, progress.at(Chain::Closed, count))?;
            let after = fill_pairs(alloc, pairs, scope.below()?, begun, reach)?;
            Ok(after.chained(Chain::Closed))
        }
    }
}

/// A node in a loop's place, once for each item.
#[cycle(expansion)]
fn fill_turns<F: Files>(
    alloc: Global,
    steps: &Turns,
    node: &Node,
    scope: Scope<'_>,
    progress: Progress,
    reach: &mut Reach<'_, F>,
) -> Result<Progress, ExpandFault>
    ensures gives { GivesFrom F.files result reach.old reach.new (λ opens. turns steps.now.name
        (part_of node.now) steps.now.items (scope_of (followed scope.entry.at.calls opens)
        scope.entry.frame.now scope.entry.at.region) progress) }
{
    let mut after = progress;
    for item in steps.items.as_slice() {
        let inner = within(alloc, scope.frame, &steps.name, item.copy(alloc)?)?;
        let turn = Scope {
            frame: &inner,
            at: scope.at,
        };
        after = fill_body(alloc, node, Misfit::WrongKind, turn, after, reach)?;
    }
    Ok(after)
}

/// A pair behind what is there: what its key asks for.
#[cycle(expansion)]
pub fn fill_pair<F: Files>(
    alloc: Global,
    pair: &NodePair,
    scope: Scope<'_>,
    progress: Progress,
    reach: &mut Reach<'_, F>,
) -> Result<Progress, ExpandFault>
    ensures gives { GivesFrom F.files result reach.old reach.new (λ opens. pair_behind (entry_of
        pair.now) (scope_of (followed scope.entry.at.calls opens) scope.entry.frame.now
        scope.entry.at.region) progress) }
{
    let chain = progress.chain;
    let count = progress.count;
    let action = key_asks(alloc, &pair.key, scope.frame, &pair.key_place, chain, count)?;
    fill_asked(alloc, action, &pair.item, scope, progress, reach)
}

/// What a key asked for.
#[cycle(expansion)]
#[tactic(auto, using(pl_calls::proofs::Alone::gives_alone))]
fn fill_asked<F: Files>(
    alloc: Global,
    action: Action,
    node: &Node,
    scope: Scope<'_>,
    progress: Progress,
    reach: &mut Reach<'_, F>,
) -> Result<Progress, ExpandFault>
    ensures gives { GivesFrom F.files result reach.old reach.new (λ opens. done action (part_of
        node.now) (scope_of (followed scope.entry.at.calls opens) scope.entry.frame.now
        scope.entry.at.region) progress) }
{
    match action {
        Action::Put(key, origin) => {
            let made = MadeKey { key, origin };
            fill_key(alloc, made, node, scope, progress, reach)
        }
        Action::Run(chain) => {
            let after = fill_body(alloc, node, Misfit::WrongKind, scope, progress, reach)?;
            Ok(after.chained(chain))
        }
        Action::Pass(chain) => Ok(progress.chained(chain)),
        Action::Repeat(steps, count) => {
            let begun = progress.before_turns(count);
            fill_turns(alloc, &steps, node, scope, begun, reach)
        }
        Action::Insert => fill_body(alloc, node, Misfit::InsertNoMapping, scope, progress, reach),
    }
}

/// A key and its value behind what is there. X9 at a key that may not stand there, before its value
/// is expanded.
#[cycle(expansion)]
#[tactic(auto, using(pl_calls::proofs::Alone::gives_alone))]
pub fn fill_key<F: Files>(
    alloc: Global,
    made: MadeKey,
    node: &Node,
    scope: Scope<'_>,
    progress: Progress,
    reach: &mut Reach<'_, F>,
) -> Result<Progress, ExpandFault>
    ensures gives { GivesFrom F.files result reach.old reach.new (λ opens. done (Put made.key
        made.origin) (part_of node.now) (scope_of (followed scope.entry.at.calls opens)
        scope.entry.frame.now scope.entry.at.region) progress) }
{
    let MadeKey {
        key,
        origin: key_origin,
    } = made;
    judge_key(
        alloc,
        scope.at.region,
        &progress.content,
        &key,
        &key_origin.source,
    )?;
    let one = expand_under(alloc, &key, node, scope, &progress, reach)?;
    let item = one.node;
    let pair = MarkedPair {
        key,
        key_origin,
        item,
    };
    put_pair(alloc, pair, one.count, progress)
}

/// The value of a key: the path of a call, or a value like any other.
#[cycle(expansion)]
#[tactic(auto, using(pl_calls::proofs::Alone::gives_alone))]
fn expand_under<F: Files>(
    alloc: Global,
    key: &Text,
    node: &Node,
    scope: Scope<'_>,
    progress: &Progress,
    reach: &mut Reach<'_, F>,
) -> Result<Counted, ExpandFault>
    ensures gives { GivesFrom F.files result reach.old reach.new (λ opens. value_under (is_path
        scope.entry.at.region progress.now.content key.now) key.now (part_of node.now) (scope_of
        (followed scope.entry.at.calls opens) scope.entry.frame.now scope.entry.at.region)
        progress.now.count) }
{
    let count = progress.count;
    if scope.at.region.is_path(&progress.content, key) {
        return expand_path(alloc, node, scope.frame, count);
    }
    expand_node(alloc, node, scope.under(key), count, reach)
}

/// The path of a call. X9 where it is a list or a mapping.
pub fn expand_path(
    alloc: Global,
    node: &Node,
    frame: &Frame,
    count: u32,
) -> Result<Counted, ExpandFault>
    ensures { Gives result (path_by (part_of node.now).shape (part_of node.now).place frame.now
        count) }
{
    match &node.body {
        NodeBody::Scalar(text) => path_at(alloc, text, frame, &node.place, count),
        _ => {
            enter(alloc, &node.place, count)?;
            let first = complain(alloc, ExpandProblem::WrongKind, &node.place)?;
            Err(ExpandFault::Refused(first))
        }
    }
}

/// Pairs behind what is there.
#[cycle(expansion)]
fn fill_pairs<F: Files>(
    alloc: Global,
    pairs: &List<NodePair>,
    scope: Scope<'_>,
    progress: Progress,
    reach: &mut Reach<'_, F>,
) -> Result<Progress, ExpandFault>
    ensures gives { GivesFrom F.files result reach.old reach.new (λ opens. pairs_behind (map
        entry_of pairs.now) (scope_of (followed scope.entry.at.calls opens) scope.entry.frame.now
        scope.entry.at.region) progress) }
{
    let mut after = progress;
    for pair in pairs.as_slice() {
        after = fill_pair(alloc, pair, scope, after, reach)?;
    }
    Ok(after)
}

/// Items behind those that are there.
#[cycle(expansion)]
fn fill_items<F: Files>(
    alloc: Global,
    items: &List<Node>,
    scope: Scope<'_>,
    progress: Progress,
    reach: &mut Reach<'_, F>,
) -> Result<Progress, ExpandFault>
    ensures gives { GivesFrom F.files result reach.old reach.new (λ opens. items_behind (map part_of
        items.now) (scope_of (followed scope.entry.at.calls opens) scope.entry.frame.now
        scope.entry.at.region) progress) }
{
    let mut after = progress;
    for item in items.as_slice() {
        after = fill_item(alloc, item, scope, after, reach)?;
    }
    Ok(after)
}

/// An item behind those that are there.
#[cycle(expansion)]
fn fill_item<F: Files>(
    alloc: Global,
    node: &Node,
    scope: Scope<'_>,
    progress: Progress,
    reach: &mut Reach<'_, F>,
) -> Result<Progress, ExpandFault>
    ensures gives { GivesFrom F.files result reach.old reach.new (λ opens. item_behind (part_of
        node.now) (scope_of (followed scope.entry.at.calls opens) scope.entry.frame.now
        scope.entry.at.region) progress) }
{
    let place = &node.place;
    let count = progress.count;
    match &node.body {
        NodeBody::Scalar(text) => {
            let region = scope.at.region.of_item();
            let one = given_value(alloc, text, scope.frame, place, count, region, None)?;
            let one = settle(alloc, one, scope, reach)?;
            let progress = progress.at(Chain::Closed, one.count);
            spread(alloc, scope, one.node, progress, reach)
        }
        NodeBody::Seq(items) => {
            let count = enter(alloc, place, count)?;
            let begun = begin(alloc, Kind::Items, Chain::Closed, count);
            let inside = scope.inside().below()?;
            let inner = fill_items(alloc, items, inside, begun, reach)?;
            let list = finish(alloc, scope.frame, place, inner)?;
            put_alone(alloc, scope, list, progress, reach)
        }
        NodeBody::Map(pairs) => fill_mapping(alloc, place, pairs, scope, progress, reach),
    }
}

/// A mapping that is an item.
#[cycle(expansion)]
fn fill_mapping<F: Files>(
    alloc: Global,
    place: &Place,
    pairs: &List<NodePair>,
    scope: Scope<'_>,
    progress: Progress,
    reach: &mut Reach<'_, F>,
) -> Result<Progress, ExpandFault>
    ensures gives { GivesFrom F.files result reach.old reach.new (λ opens. mapping_item place.now
        (map entry_of pairs.now) (scope_of (followed scope.entry.at.calls opens)
        scope.entry.frame.now scope.entry.at.region) progress) }
{
    let count = enter(alloc, place, progress.count)?;
    match manner_of(alloc, pairs)? {
        Manner::Empty => {
            let begun = begin(alloc, Kind::Pairs, Chain::Closed, count);
            let one = finish(alloc, scope.frame, place, begun)?;
            put_alone(alloc, scope, one, progress, reach)
        }
        Manner::Stays => {
            let begun = begin(alloc, Kind::Pairs, progress.chain, count);
            let inside = scope.of_item().below()?;
            let inner = fill_pairs(alloc, pairs, inside, begun, reach)?;
            let progress = progress.at(inner.chain, inner.count);
            let one = finish(alloc, scope.frame, place, inner)?;
            add_item(alloc, scope, one.node, progress, reach)
        }
        Manner::Splices(kind) => {
            let begun = begin_spliced(alloc, kind, progress.chain, count);
            let inside = scope.of_item().below()?;
            let inner = fill_pairs(alloc, pairs, inside, begun, reach)?;
            let progress = progress.at(inner.chain, inner.count);
            splice(alloc, scope, place, inner.content, progress, reach)
        }
        Manner::Mixed(other) => {
            let first = complain(alloc, ExpandProblem::WrongKind, &other)?;
            Err(ExpandFault::Refused(first))
        }
        Manner::Unclosed(key) => {
            let first = complain(alloc, ExpandProblem::BadDirective, &key)?;
            Err(ExpandFault::Refused(first))
        }
    }
}
