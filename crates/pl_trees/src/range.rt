//! Whether each number of a value is in range.

ghost use Rattle.std.specs.Prelude.{◌≡◌, []};
ghost use Rattle.std.specs.Option.{is_some};
ghost use Rattle.json.specs.Find.{as_str};
ghost use Rattle.pl_trees.specs.Trees.{in_range, items_in_range, members_in_range};
ghost use Rattle.pl_trees.specs.Views.{items_view, members_view, tree_view};

use crate::numbers::is_in_range;
use crate::tree::{Member, Tree};

/// Whether a value is a text.
fn is_text(value: &Tree<'_>) -> bool
    ensures { result ≡ is_some (as_str (tree_view value.now)) }
{
    match value {
        Tree::Text(_) => true,
        Tree::Null => false,
        Tree::Bool(_) => false,
        Tree::Number(_) => false,
        Tree::List(_, _) => false,
        Tree::Object(_) => false,
    }
}

#[cycle(range)]
#[tactic(auto, using(crate::proofs::Lists::texts_in_range))]
pub(crate) fn are_in_range(value: &Tree<'_>) -> bool
    ensures { result ≡ in_range (tree_view value.now) }
{
    match value {
        Tree::Null => true,
        Tree::Bool(_) => true,
        Tree::Number(digits) => is_in_range(*digits),
        Tree::Text(_) => true,
        Tree::List(_, rest) => items_are_in_range(rest.as_slice()),
        Tree::Object(members) => members_are_in_range(members.as_slice()),
    }
}

#[cycle(range)]
#[tactic(auto, using(crate::proofs::Trees::text_in_range))]
fn items_are_in_range(items: &[Tree<'_>]) -> bool
    ensures { result ≡ items_in_range (items_view [] items.now) }
{
    for item in items {
        if !is_text(item) && !are_in_range(item) {
            return false;
        }
    }
    true
}

#[cycle(range)]
#[tactic(auto, using(crate::proofs::Trees::text_in_range))]
fn members_are_in_range(members: &[Member<'_>]) -> bool
    ensures { result ≡ members_in_range (members_view members.now) }
{
    for member in members {
        if !is_text(&member.1) && !are_in_range(&member.1) {
            return false;
        }
    }
    true
}
