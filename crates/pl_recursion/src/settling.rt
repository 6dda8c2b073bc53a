ghost use Rattle.std.specs.Prelude.{◌≡◌, [], map};
ghost use Rattle.pl_calls.specs.Gives.{GivesFrom};
ghost use Rattle.pl_recursion.specs.Following.{scope_of};
ghost use Rattle.pl_recursion.specs.Levels.{followed};
ghost use Rattle.pl_recursion.specs.Settling.{node_settling, value_seen, node_seen, pair_seen};
ghost use Rattle.pl_recursion.specs.Settling.{item_behind, items_behind, pair_behind};
ghost use Rattle.pl_recursion.specs.Settling.{pairs_behind};

use crate::followed::{Followed, SettledPairs, SettledValue};
use crate::following::follow;
use crate::items::{items_and, items_with, pairs_and};
use crate::scope::Scope;
use pl_base::{ExactCopy, List, MarkedNode, MarkedPair, Value};
use pl_calls::{Files, Reach};
use pl_directives::{Counted, ExpandFault};
use std::alloc::Global;

/// A value where it stands: the calls in it are followed.
#[cycle(expansion)]
pub fn settle<F: Files>(
    alloc: Global,
    one: Counted,
    scope: Scope<'_>,
    reach: &mut Reach<'_, F>,
) -> Result<Counted, ExpandFault>
    ensures settled { GivesFrom F.files result reach.old reach.new (λ opens. node_settling one.node
        (scope_of (followed scope.entry.at.calls opens) scope.entry.frame.now scope.entry.at.region)
        one.count) }
{
    match &one.node.value {
        Value::Array(_) | Value::Object(_) => {
            settle_node(alloc, &one.node, scope, one.count, reach)
        }
        _atom => Ok(one),
    }
}

/// A node that an expression gave, where it stands: the calls in it are followed.
#[cycle(expansion)]
pub fn settle_node<F: Files>(
    alloc: Global,
    node: &MarkedNode,
    scope: Scope<'_>,
    count: u32,
    reach: &mut Reach<'_, F>,
) -> Result<Counted, ExpandFault>
    ensures settled { GivesFrom F.files result reach.old reach.new (λ opens. node_settling node.now
        (scope_of (followed scope.entry.at.calls opens) scope.entry.frame.now scope.entry.at.region)
        count) }
{
    let one = settle_value(alloc, &node.value, scope, count, reach)?;
    let origin = node.origin.copy(alloc)?;
    let node = MarkedNode {
        origin,
        value: one.value,
    };
    Ok(Counted {
        node,
        count: one.count,
    })
}

#[cycle(expansion)]
fn settle_value<F: Files>(
    alloc: Global,
    value: &Value,
    scope: Scope<'_>,
    count: u32,
    reach: &mut Reach<'_, F>,
) -> Result<SettledValue, ExpandFault>
    ensures settled { GivesFrom F.files result reach.old reach.new (λ opens. (value_seen
        value.now).settled (scope_of (followed scope.entry.at.calls opens) scope.entry.frame.now
        scope.entry.at.region) count) }
{
    match value {
        Value::Array(items) => {
            let all = settle_items(alloc, items, scope.below()?, count, reach)?;
            Ok(SettledValue {
                value: Value::Array(all.items),
                count: all.count,
            })
        }
        Value::Object(pairs) => {
            let all = settle_pairs(alloc, pairs, scope.below()?, count, reach)?;
            Ok(SettledValue {
                value: Value::Object(all.pairs),
                count: all.count,
            })
        }
        atom => Ok(SettledValue {
            value: atom.copy(alloc)?,
            count,
        }),
    }
}

#[cycle(expansion)]
fn settle_items<F: Files>(
    alloc: Global,
    items: &List<MarkedNode>,
    scope: Scope<'_>,
    count: u32,
    reach: &mut Reach<'_, F>,
) -> Result<Followed, ExpandFault>
    ensures settled { GivesFrom F.files result reach.old reach.new (λ opens. items_behind (map
        node_seen items.now) (scope_of (followed scope.entry.at.calls opens) scope.entry.frame.now
        scope.entry.at.region) (record { items = []; count = count })) }
{
    let mut all = Followed {
        items: List::new(alloc),
        count,
    };
    for item in items.as_slice() {
        all = settle_item(alloc, item, scope, all, reach)?;
    }
    Ok(all)
}

/// An item behind those before it: a call gives what it gives in its place.
#[cycle(expansion)]
#[tactic(auto, using(crate::proofs::Itself::node_itself))]
fn settle_item<F: Files>(
    alloc: Global,
    item: &MarkedNode,
    scope: Scope<'_>,
    before: Followed,
    reach: &mut Reach<'_, F>,
) -> Result<Followed, ExpandFault>
    ensures settled { GivesFrom F.files result reach.old reach.new (λ opens. item_behind (node_seen
        item.now) (scope_of (followed scope.entry.at.calls opens) scope.entry.frame.now
        scope.entry.at.region) before) }
{
    match scope.at.region.call_form(item) {
        Some(form) => {
            let more = follow(alloc, item, scope, form, before.count, reach)?;
            Ok(items_with(before, more)?)
        }
        None => {
            let one = settle_node(alloc, item, scope.inside(), before.count, reach)?;
            Ok(items_and(before, one)?)
        }
    }
}

#[cycle(expansion)]
fn settle_pairs<F: Files>(
    alloc: Global,
    pairs: &List<MarkedPair>,
    scope: Scope<'_>,
    count: u32,
    reach: &mut Reach<'_, F>,
) -> Result<SettledPairs, ExpandFault>
    ensures settled { GivesFrom F.files result reach.old reach.new (λ opens. pairs_behind (map
        pair_seen pairs.now) (scope_of (followed scope.entry.at.calls opens) scope.entry.frame.now
        scope.entry.at.region) (record { pairs = []; count = count })) }
{
    let mut all = SettledPairs {
        pairs: List::new(alloc),
        count,
    };
    for pair in pairs.as_slice() {
        all = settle_pair(alloc, pair, scope, all, reach)?;
    }
    Ok(all)
}

/// A pair behind those before it.
#[cycle(expansion)]
fn settle_pair<F: Files>(
    alloc: Global,
    pair: &MarkedPair,
    scope: Scope<'_>,
    before: SettledPairs,
    reach: &mut Reach<'_, F>,
) -> Result<SettledPairs, ExpandFault>
    ensures settled { GivesFrom F.files result reach.old reach.new (λ opens. pair_behind (pair_seen
        pair.now) (scope_of (followed scope.entry.at.calls opens) scope.entry.frame.now
        scope.entry.at.region) before) }
{
    let scope = scope.under(&pair.key);
    let one = settle_node(alloc, &pair.item, scope, before.count, reach)?;
    Ok(pairs_and(alloc, before, pair, one)?)
}
