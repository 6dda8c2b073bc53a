//! What a value is.

ghost use Rattle.std.specs.Prelude.{◌≡◌, option_and_then, option_map};
ghost use Rattle.serde_json.specs.Data.{no_members};
ghost use Rattle.serde_json.specs.Find.{as_array, as_bool, as_number, as_object, as_str, as_u64};
ghost use Rattle.pl_trees.specs.Trees.{data_of_items, data_of_members, seen};
ghost use Rattle.pl_trees.specs.Views.{items_view, members_view};

use crate::numbers::whole;

/// A JSON value whose texts and names are slices of the content that it was read from.
#[derive(Drop)]
pub enum Tree<'v> {
    Null,
    Bool(bool),
    /// A number's text.
    Number(&'v str),
    Text(&'v str),
    /// The texts at a list's front, and its items from the first one on that is none.
    List(Vec<&'v str>, Vec<Tree<'v>>),
    /// An object's members in their order.
    Object(Vec<(&'v str, Tree<'v>)>),
}

/// A member of an object: its name and its value.
pub(crate) type Member<'v> = (&'v str, Tree<'v>);

/// The text that a value is, or None where it is none.
#[tactic(auto, using(crate::proofs::Trees::str_seen))]
pub fn text_in<'v>(value: &Tree<'v>) -> Option<&'v str>
    ensures { option_map (λ text. text.now) result ≡ as_str (seen value.now) }
{
    match value {
        Tree::Text(text) => Some(*text),
        Tree::Null => None,
        Tree::Bool(_) => None,
        Tree::Number(_) => None,
        Tree::List(_, _) => None,
        Tree::Object(_) => None,
    }
}

/// Whether a value is true or false, or None where it is neither.
#[tactic(auto, using(crate::proofs::Trees::bool_seen))]
pub fn flag_in(value: &Tree<'_>) -> Option<bool>
    ensures { result ≡ as_bool (seen value.now) }
{
    match value {
        Tree::Bool(flag) => Some(*flag),
        Tree::Null => None,
        Tree::Number(_) => None,
        Tree::Text(_) => None,
        Tree::List(_, _) => None,
        Tree::Object(_) => None,
    }
}

/// The number that a value is, where it is a whole one of eight bytes and has no minus.
#[tactic(auto, using(crate::proofs::Trees::number_seen))]
pub fn number_in(value: &Tree<'_>) -> Option<u64>
    ensures { result ≡ option_and_then as_u64 (as_number (seen value.now)) }
{
    match value {
        Tree::Number(digits) => whole(*digits),
        Tree::Null => None,
        Tree::Bool(_) => None,
        Tree::Text(_) => None,
        Tree::List(_, _) => None,
        Tree::Object(_) => None,
    }
}

/// The items of a value, the texts at their front and the others, or None where it is no list.
pub fn items_in<'t, 'v>(value: &'t Tree<'v>) -> Option<(&'t [&'v str], &'t [Tree<'v>])>
    ensures { option_map (λ items. data_of_items (items_view items.0.now items.1.now)) result
        ≡ as_array (seen value.now) }
{
    match value {
        Tree::List(texts, rest) => Some((texts.as_slice(), rest.as_slice())),
        Tree::Null => None,
        Tree::Bool(_) => None,
        Tree::Number(_) => None,
        Tree::Text(_) => None,
        Tree::Object(_) => None,
    }
}

/// The members of a value as they stand in its text, or None where it is no object.
pub(crate) fn members_in<'t, 'v>(value: &'t Tree<'v>) -> Option<&'t [Member<'v>]>
    ensures { option_map (λ members. data_of_members (members_view members.now) no_members) result
        ≡ as_object (seen value.now) }
{
    match value {
        Tree::Object(members) => Some(members.as_slice()),
        Tree::Null => None,
        Tree::Bool(_) => None,
        Tree::Number(_) => None,
        Tree::Text(_) => None,
        Tree::List(_, _) => None,
    }
}
