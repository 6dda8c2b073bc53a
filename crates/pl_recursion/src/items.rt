ghost use Rattle.std.specs.Prelude.{◌≡◌, ◌++◌, ◌∷◌, [], codes, map, IfOk};
ghost use Rattle.pl_base.specs.declared.value.Value.{out-Value, Str, Object};
ghost use Rattle.pl_eval.specs.LookUps.{made};
ghost use Rattle.pl_directives.specs.Gives.{Gives};
ghost use Rattle.pl_recursion.specs.Levels.{variable_item, items_of, items_from};
ghost use Rattle.pl_recursion.specs.Settling.{items_with, items_and, pairs_and, with_item};
ghost use Rattle.pl_frame.specs.Names.{named};

use crate::followed::{Followed, SettledPairs};
use pl_base::{ExactCopy, List, MarkedNode, MarkedPair, Memory, Origin, Place, Text, Value};
use pl_directives::{Counted, ExpandFault, ExpandProblem, Form, complain};
use pl_frame::property;
use std::alloc::Global;

/// The name of a variable's item.
fn name_of(alloc: Global, origin: &Origin, name: Text) -> Result<MarkedPair, Memory>
    ensures { IfOk result (λ pair. pair ≡ named origin.now (codes "name") (made origin.now (Str
        name))) }
{
    let node = MarkedNode {
        origin: origin.copy(alloc)?,
        value: Value::Str(name),
    };
    property(alloc, origin, "name", node)
}

/// The properties of a variable's item.
fn variable_pairs(alloc: Global, name: MarkedPair, value: MarkedPair) -> Result<Value, Memory>
    ensures { IfOk result (λ item. item ≡ Object (name ∷ value ∷ [])) }
{
    let mut pairs = List::new(alloc);
    pairs.push(name)?;
    pairs.push(value)?;
    Ok(Value::Object(pairs))
}

/// A variable of a mapping as an item, which comes from where the pair's key does.
fn variable_item(alloc: Global, pair: MarkedPair) -> Result<MarkedNode, Memory>
    ensures { IfOk result (λ item. item ≡ variable_item pair) }
{
    let MarkedPair {
        key,
        key_origin,
        item,
    } = pair;
    let name = name_of(alloc, &key_origin, key)?;
    let value = property(alloc, &key_origin, "value", item)?;
    let pairs = variable_pairs(alloc, name, value)?;
    Ok(MarkedNode {
        origin: key_origin,
        value: pairs,
    })
}

/// The variables of a mapping as items.
pub fn variable_items(alloc: Global, pairs: List<MarkedPair>) -> Result<List<MarkedNode>, Memory>
    ensures { IfOk result (λ items. items ≡ map variable_item pairs) }
{
    let mut items = List::new(alloc);
    for pair in pairs.into_vec() {
        items.push(variable_item(alloc, pair)?)?;
    }
    Ok(items)
}

/// What the value of a template's form gives in the place of the call's item. X9 at that value
/// where it is of another kind.
fn items_of(
    alloc: Global,
    form: Form,
    value: Value,
    place: &Place,
) -> Result<List<MarkedNode>, ExpandFault>
    ensures { Gives result (items_of form (out-Value value) place.now) }
{
    match (form, value) {
        (_, Value::Array(items)) => Ok(items),
        (Form::Variables, Value::Object(pairs)) => Ok(variable_items(alloc, pairs)?),
        _ => {
            let first = complain(alloc, ExpandProblem::WrongKind, place)?;
            Err(ExpandFault::Refused(first))
        }
    }
}

/// What the value of a template's form gives, and the count behind it.
pub fn items_from(
    alloc: Global,
    form: Form,
    place: &Place,
    one: Counted,
) -> Result<Followed, ExpandFault>
    ensures { Gives result (items_from form place.now one) }
{
    let Counted { node, count } = one;
    let MarkedNode { origin: _, value } = node;
    let items = items_of(alloc, form, value, place)?;
    Ok(Followed { items, count })
}

/// Items, and more behind them.
pub fn items_with(before: Followed, more: Followed) -> Result<Followed, Memory>
    ensures { IfOk result (λ all. all ≡ items_with before more) }
{
    let Followed {
        items: mut all,
        count: _,
    } = before;
    let Followed { items, count } = more;
    for item in items.into_vec() {
        all.push(item)?;
    }
    Ok(Followed { items: all, count })
}

/// Items, and one more behind them.
pub fn items_and(before: Followed, one: Counted) -> Result<Followed, Memory>
    ensures { IfOk result (λ all. all ≡ items_and before one) }
{
    let Followed {
        mut items,
        count: _,
    } = before;
    items.push(one.node)?;
    Ok(Followed {
        items,
        count: one.count,
    })
}

/// Pairs, and one more behind them with another value.
pub fn pairs_and(
    alloc: Global,
    before: SettledPairs,
    pair: &MarkedPair,
    one: Counted,
) -> Result<SettledPairs, Memory>
    ensures { IfOk result (λ all. all ≡ pairs_and before pair.now one) }
{
    let SettledPairs {
        mut pairs,
        count: _,
    } = before;
    let Counted { node, count } = one;
    pairs.push(with_item(alloc, pair, node)?)?;
    Ok(SettledPairs { pairs, count })
}

/// A copy of a pair with another value in its place. Memory where memory is wanting.
pub fn with_item(alloc: Global, pair: &MarkedPair, item: MarkedNode) -> Result<MarkedPair, Memory>
    ensures { IfOk result (λ other. other ≡ with_item pair.now item) }
{
    let key = pair.key.copy(alloc)?;
    let key_origin = pair.key_origin.copy(alloc)?;
    Ok(MarkedPair {
        key,
        key_origin,
        item,
    })
}
