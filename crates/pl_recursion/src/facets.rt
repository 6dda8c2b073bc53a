ghost use Rattle.std.specs.Prelude.{◌≡◌, map, IfOk};
ghost use Rattle.std.specs.List.{list_all, list_any};
ghost use Rattle.std.specs.Option.{option_copied};
ghost use Rattle.pl_recursion.specs.Expanding.{entry_of, facet_of, kind_of, part_of};
ghost use Rattle.pl_directives.specs.Manners.{is_directive, is_insert, is_other, first_kind};
ghost use Rattle.pl_directives.specs.Manners.{first_other, is_unclosed, first_unclosed};
ghost use Rattle.pl_directives.specs.Manners.{closed_manner, filled_manner, manner_of};
ghost use Rattle.pl_template.specs.Cutting.{holds_opening};
ghost use Rattle.pl_template.specs.Keys.{form_of_key};

use pl_base::{ExactCopy, List, Memory, Node, NodeBody, NodePair, Place};
use pl_directives::{Kind, Manner};
use pl_template::{KeyForm, ScalarForm, begins_expression, key_form, scalar_form};
use std::alloc::Global;

/// How a mapping stands in its sequence, by the forms of its keys and the kinds of its values.
/// Nothing is evaluated for it.
pub fn manner_of(alloc: Global, pairs: &List<NodePair>) -> Result<Manner, Memory>
    ensures { IfOk result (λ manner. manner ≡ manner_of (map facet_of (map entry_of pairs.now))) }
{
    if pairs.is_empty() {
        return Ok(Manner::Empty);
    }
    if !has_expression(pairs) {
        return Ok(Manner::Stays);
    }
    filled_manner(alloc, pairs)
}

/// Whether an expression begins in one of the keys. It takes no memory.
fn has_expression(pairs: &List<NodePair>) -> bool
    ensures { result ≡ list_any (λ pair. holds_opening pair.key) pairs.now }
{
    pairs
        .as_slice()
        .iter()
        .any(|pair| begins_expression(&pair.key))
}

/// The same of a mapping that has a key. Where an expression in a key has no end, that is told
/// before all else.
fn filled_manner(alloc: Global, pairs: &List<NodePair>) -> Result<Manner, Memory>
    ensures { IfOk result (λ manner. manner ≡ filled_manner (map facet_of (map entry_of
        pairs.now))) }
{
    match first_unclosed(alloc, pairs)? {
        Some(place) => Ok(Manner::Unclosed(place)),
        None => closed_manner(alloc, pairs),
    }
}

/// The same of a mapping of keys that have their ends.
fn closed_manner(alloc: Global, pairs: &List<NodePair>) -> Result<Manner, Memory>
    ensures { IfOk result (λ manner. manner ≡ closed_manner (map facet_of (map entry_of
        pairs.now))) }
{
    if !are_directives(alloc, pairs)? {
        return Ok(Manner::Stays);
    }
    let kind = first_kind(pairs);
    if let Some(place) = first_other(kind, pairs) {
        return Ok(Manner::Mixed(place.copy(alloc)?));
    }
    if has_insert(alloc, pairs)? {
        return Ok(Manner::Splices(Kind::Pairs));
    }
    Ok(Manner::Splices(kind))
}

/// Whether an expression in a text has no end.
fn is_unclosed(form: &ScalarForm) -> bool
    ensures { result ≡ is_unclosed form.now }
{
    match form {
        ScalarForm::Unclosed => true,
        ScalarForm::Plain | ScalarForm::Whole(_) | ScalarForm::Joined(_) => false,
    }
}

/// The first key in which an expression has no end.
fn first_unclosed(alloc: Global, pairs: &List<NodePair>) -> Result<Option<Place>, Memory>
    ensures { IfOk result (λ first. first ≡ first_unclosed (map facet_of (map entry_of
        pairs.now))) }
{
    for pair in pairs.as_slice() {
        if is_unclosed(&scalar_form(alloc, &pair.key)?) {
            return Ok(Some(pair.key_place.copy(alloc)?));
        }
    }
    Ok(None)
}

/// Whether a key is a directive, also one out of its form.
fn is_directive(form: &KeyForm) -> bool
    ensures { result ≡ is_directive form.now }
{
    match form {
        KeyForm::Plain | KeyForm::Computed(_) => false,
        _ => true,
    }
}

fn is_insert(form: &KeyForm) -> bool
    ensures { result ≡ is_insert form.now }
{
    match form {
        KeyForm::Insert => true,
        _ => false,
    }
}

/// Whether all keys are directives.
fn are_directives(alloc: Global, pairs: &List<NodePair>) -> Result<bool, Memory>
    ensures { IfOk result (λ are. are ≡ list_all (λ one. is_directive (form_of_key one.key)) (map
        facet_of (map entry_of pairs.now))) }
{
    for pair in pairs.as_slice() {
        if !is_directive(&key_form(alloc, &pair.key)?) {
            return Ok(false);
        }
    }
    Ok(true)
}

/// Whether one of the keys is `insert`.
fn has_insert(alloc: Global, pairs: &List<NodePair>) -> Result<bool, Memory>
    ensures { IfOk result (λ has. has ≡ list_any (λ one. is_insert (form_of_key one.key)) (map
        facet_of (map entry_of pairs.now))) }
{
    for pair in pairs.as_slice() {
        if is_insert(&key_form(alloc, &pair.key)?) {
            return Ok(true);
        }
    }
    Ok(false)
}

/// The kind of a value that is written as a collection.
fn kind_of(node: &Node) -> Kind
    ensures { result ≡ kind_of (part_of node.now).shape }
{
    match &node.body {
        NodeBody::Scalar(_) => Kind::Unknown,
        NodeBody::Seq(_) => Kind::Items,
        NodeBody::Map(_) => Kind::Pairs,
    }
}

/// The kind of the first value that is written as a collection.
fn first_kind(pairs: &List<NodePair>) -> Kind
    ensures { result ≡ first_kind (map facet_of (map entry_of pairs.now)) }
{
    for pair in pairs.as_slice() {
        let kind = kind_of(&pair.item);
        if kind != Kind::Unknown {
            return kind;
        }
    }
    Kind::Unknown
}

fn is_other(kind: Kind, found: Kind) -> bool
    ensures { result ≡ is_other kind found }
{
    match (kind, found) {
        (Kind::Items, Kind::Pairs) | (Kind::Pairs, Kind::Items) => true,
        _ => false,
    }
}

/// The first value of the other kind than that.
fn first_other(kind: Kind, pairs: &List<NodePair>) -> Option<&Place>
    ensures { option_copied result ≡ first_other kind (map facet_of (map entry_of pairs.now)) }
{
    for pair in pairs.as_slice() {
        if is_other(kind, kind_of(&pair.item)) {
            return Some(&pair.item.place);
        }
    }
    None
}
