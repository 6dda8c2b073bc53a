ghost use Rattle.std.specs.Prelude.{◌≡◌, ◌++◌, ◌&&◌, [], not, codes, filter, IfOk};
ghost use Rattle.std.specs.List.{cons_option, filter_map, list_any};
ghost use Rattle.std.specs.Option.{option_copied};
ghost use Rattle.pl_base.specs.Texts.{is};
ghost use Rattle.pl_calls.specs.Judging.{unless_at};
ghost use Rattle.pl_directives.specs.Gives.{Gives};
ghost use Rattle.pl_directives.specs.declared.fault.ExpandProblem.TheVariants.{WrongKind};
ghost use Rattle.pl_expand.specs.Merging.{has_key, variables_in, joined_variables};
ghost use Rattle.pl_expand.specs.Merging.{both_variables, with_items, is_replaced, root_side};
ghost use Rattle.pl_extends.specs.Forms.{is_form, form_place};
ghost use Rattle.pl_expand.specs.Merging.{template_side, joined_pairs};
ghost use Rattle.pl_expand.specs.Merging.{shared_variables, merged_with, merged};

use pl_base::{ExactCopy, List, MarkedNode, MarkedPair, Memory, Place, Text, Value};
use pl_directives::{ExpandFault, ExpandProblem, complain};
use pl_extends::{Extension, form_place, item_under};
use pl_recursion::variable_items;
use std::alloc::Global;

/// Whether one of the pairs has a key.
fn has_key(key: &str, pairs: &List<MarkedPair>) -> bool
    ensures { result ≡ has_key key.now pairs.now }
{
    pairs.as_slice().iter().any(|pair| pair.key.as_str() == key)
}

/// Variables as items. X9 where they are another text than the empty one, or another atom.
fn variables_in(alloc: Global, node: &MarkedNode) -> Result<List<MarkedNode>, ExpandFault>
    ensures { Gives result (variables_in node.now) }
{
    match &node.value {
        Value::Array(items) => Ok(items.copy(alloc)?),
        Value::Object(pairs) => Ok(variable_items(alloc, pairs.copy(alloc)?)?),
        Value::Str(text) if text.is_empty() => Ok(List::new(alloc)),
        Value::Null => Ok(List::new(alloc)),
        _ => {
            let first = complain(alloc, ExpandProblem::WrongKind, &node.origin.source)?;
            Err(ExpandFault::Refused(first))
        }
    }
}

/// Items, and more behind them.
fn joined(items: List<MarkedNode>, more: List<MarkedNode>) -> Result<List<MarkedNode>, Memory>
    ensures { IfOk result (λ all. all ≡ items ++ more) }
{
    let mut all = items;
    for item in more.into_vec() {
        all.push(item)?;
    }
    Ok(all)
}

/// The items of both variables.
fn join_variables(
    alloc: Global,
    first: &MarkedNode,
    second: &MarkedNode,
) -> Result<List<MarkedNode>, ExpandFault>
    ensures { Gives result (joined_variables first.now second.now) }
{
    let items = variables_in(alloc, first)?;
    let more = variables_in(alloc, second)?;
    Ok(joined(items, more)?)
}

/// The items of both variables, where both files have some.
fn both_variables(
    alloc: Global,
    first: Option<&MarkedNode>,
    second: Option<&MarkedNode>,
) -> Result<Option<List<MarkedNode>>, ExpandFault>
    ensures { Gives result (both_variables (option_copied first.entry) (option_copied
        second.entry)) }
{
    match (first, second) {
        (Some(first), Some(second)) => Ok(Some(join_variables(alloc, first, second)?)),
        _ => Ok(None),
    }
}

/// A pair of the root's variables with both files' items.
fn with_items(
    alloc: Global,
    items: Option<&List<MarkedNode>>,
    pair: MarkedPair,
) -> Result<MarkedPair, Memory>
    ensures { IfOk result (λ other. other ≡ with_items (option_copied items.entry) pair) }
{
    let Some(items) = items else {
        return Ok(pair);
    };
    let value = Value::Array(items.copy(alloc)?);
    let MarkedPair {
        key,
        key_origin,
        item,
    } = pair;
    let MarkedNode { origin, value: _ } = item;
    let item = MarkedNode { origin, value };
    Ok(MarkedPair {
        key,
        key_origin,
        item,
    })
}

/// Whether the template's pair of that key stands in the place of the root's.
fn is_replaced(more: &List<MarkedPair>, key: &Text) -> bool
    ensures { result ≡ is_replaced more.now key.now }
{
    match key.as_str() {
        "pool" | "lockBehavior" => has_key(key.as_str(), more),
        _ => false,
    }
}

/// What a pair of the root becomes beside the template's.
fn root_side(
    alloc: Global,
    items: Option<&List<MarkedNode>>,
    more: &List<MarkedPair>,
    pair: MarkedPair,
) -> Result<Option<MarkedPair>, Memory>
    ensures { IfOk result (λ side. side ≡ root_side (option_copied items.entry) more.now pair) }
{
    if is_replaced(more, &pair.key) {
        return Ok(None);
    }
    if pair.key.as_str() == "variables" {
        return Ok(Some(with_items(alloc, items, pair)?));
    }
    Ok(Some(pair))
}

/// Pairs, and behind them what another one became, where that is anything.
fn put_side(all: List<MarkedPair>, side: Option<MarkedPair>) -> Result<List<MarkedPair>, Memory>
    ensures { IfOk result (λ next. next ≡ all ++ cons_option side []) }
{
    match side {
        Some(side) => {
            let mut next = all;
            next.push(side)?;
            Ok(next)
        }
        None => Ok(all),
    }
}

/// The root's pairs beside the template's.
#[tactic(auto, using(crate::proofs::Sides::filter_map_more))]
fn root_sides(
    alloc: Global,
    items: Option<&List<MarkedNode>>,
    more: &List<MarkedPair>,
    pairs: List<MarkedPair>,
) -> Result<List<MarkedPair>, Memory>
    ensures { IfOk result
        (λ all. all ≡ filter_map (root_side (option_copied items.entry) more.now) pairs) }
{
    let mut all = List::new(alloc);
    for pair in pairs.into_vec() {
        all = put_side(all, root_side(alloc, items, more, pair)?)?;
    }
    Ok(all)
}

/// Whether a pair of the template stands beside the root's: variables don't where the root has
/// some.
fn template_side(has_variables: bool, pair: &MarkedPair) -> bool
    ensures { result ≡ not (is pair.now.key (codes "variables") && has_variables) }
{
    !(pair.key.as_str() == "variables" && has_variables)
}

/// The pairs of the template that stand behind the root's.
fn template_sides(
    has_variables: bool,
    front: List<MarkedPair>,
    more: List<MarkedPair>,
) -> Result<List<MarkedPair>, Memory>
    ensures { IfOk result (λ all. all ≡ front ++ filter (λ pair. not (is pair.key (codes
        "variables") && has_variables)) more) }
{
    let mut all = front;
    for pair in more.into_vec() {
        if template_side(has_variables, &pair) {
            all.push(pair)?;
        }
    }
    Ok(all)
}

/// The pairs of both files.
fn joined_pairs(
    alloc: Global,
    pairs: List<MarkedPair>,
    more: List<MarkedPair>,
    items: Option<&List<MarkedNode>>,
) -> Result<List<MarkedPair>, Memory>
    ensures { IfOk result (λ all. all ≡ joined_pairs pairs more (option_copied items.entry)) }
{
    let has_variables = has_key("variables", &pairs);
    let front = root_sides(alloc, items, &more, pairs)?;
    template_sides(has_variables, front, more)
}

/// X9 at a key of the root's own jobs.
fn judge_forms(alloc: Global, pairs: &List<MarkedPair>) -> Result<(), ExpandFault>
    ensures { Gives result (unless_at WrongKind (form_place pairs.now) tt) }
{
    match form_place(pairs) {
        None => Ok(()),
        Some(place) => {
            let first = complain(alloc, ExpandProblem::WrongKind, place)?;
            Err(ExpandFault::Refused(first))
        }
    }
}

/// The items of both variables, where the root and the template have some.
fn shared_variables(
    alloc: Global,
    pairs: &List<MarkedPair>,
    more: &List<MarkedPair>,
) -> Result<Option<List<MarkedNode>>, ExpandFault>
    ensures { Gives result (shared_variables pairs.now more.now) }
{
    let first = item_under("variables", pairs);
    both_variables(alloc, first, item_under("variables", more))
}

/// The pairs of the root with those of the template.
fn merge_with(
    alloc: Global,
    more: List<MarkedPair>,
    pairs: List<MarkedPair>,
) -> Result<List<MarkedPair>, ExpandFault>
    ensures { Gives result (merged_with more pairs) }
{
    judge_forms(alloc, &pairs)?;
    let items = shared_variables(alloc, &pairs, &more)?;
    Ok(joined_pairs(alloc, pairs, more, items.as_ref())?)
}

/// The pairs of the root and of the template that it extends: the root's in their order, and then
/// the template's. X9 at a key of the root's own jobs, and where variables that become one list are
/// none.
pub fn merge(
    alloc: Global,
    extension: Option<Extension>,
    pairs: List<MarkedPair>,
) -> Result<List<MarkedPair>, ExpandFault>
    ensures { Gives result (merged extension pairs) }
{
    match extension {
        None => Ok(pairs),
        Some(extension) => {
            let Extension {
                file: _,
                pairs: more,
                count: _,
            } = extension;
            merge_with(alloc, more, pairs)
        }
    }
}
