//! Members of objects.

ghost use Rattle.std.specs.Prelude.{◌≡◌, IfOk, map, option_map};
ghost use Rattle.json.specs.Find.{get_member};
ghost use Rattle.serde_json.specs.Data.{no_members};
ghost use Rattle.serde_json.specs.Find.{as_object, get};
ghost use Rattle.pl_trees.specs.Trees.{data_of_members, entries_seen, has_only, is_among};
ghost use Rattle.pl_trees.specs.Trees.{keys_are_among, seen};
ghost use Rattle.pl_trees.specs.Views.{members_view, tree_view};

use crate::tree::{Member, Tree, members_in};
use pl_base::Memory;
use std::alloc::Global;
use std::collections::BTreeMap;

/// The value that stands last under a name, or None where none does.
#[tactic(auto, using(crate::proofs::Trees::get_seen))]
pub fn get<'t, 'v>(object: &'t Tree<'v>, name: &str) -> Option<&'t Tree<'v>>
    ensures { option_map (λ value. seen value.now) result ≡ get name.now (seen object.now) }
{
    match object {
        Tree::Object(members) => find(members.as_slice(), name),
        Tree::Null => None,
        Tree::Bool(_) => None,
        Tree::Number(_) => None,
        Tree::Text(_) => None,
        Tree::List(_, _) => None,
    }
}

/// The value that stands last under a name. It is sought from the end.
fn find<'t, 'v>(members: &'t [Member<'v>], name: &str) -> Option<&'t Tree<'v>>
    ensures { option_map (λ value. tree_view value.now) result
        ≡ get_member name.now (members_view members.now) }
{
    let mut left = members.len();
    while left > 0 {
        left -= 1;
        let member = &members[left];
        if member.0 == name {
            return Some(&member.1);
        }
    }
    None
}

/// Whether a name is among names.
fn is_among(names: &[&str], sought: &str) -> bool
    ensures { result ≡ is_among (map (λ name. name.now) names.now) sought.now }
{
    for name in names {
        if *name == sought {
            return true;
        }
    }
    false
}

/// Whether each member's name is among names.
fn are_among(names: &[&str], members: &[Member<'_>]) -> bool
    ensures { result ≡ keys_are_among (map (λ name. name.now) names.now)
        (members_view members.now) }
{
    for member in members {
        if !is_among(names, member.0) {
            return false;
        }
    }
    true
}

/// Whether a value is an object that has no other members than those of these names.
pub fn has_only(object: &Tree<'_>, names: &[&str]) -> bool
    ensures { result ≡ has_only (map (λ name. name.now) names.now) (seen object.now) }
{
    match members_in(object) {
        Some(members) => are_among(names, members),
        None => false,
    }
}

/// The members of an object by their names, in byte order, each name with its last value, or None
/// where a value is no object. Memory where memory is wanting.
pub fn by_name<'t, 'v>(
    alloc: Global,
    object: &'t Tree<'v>,
) -> Result<Option<BTreeMap<&'v str, &'t Tree<'v>>>, Memory>
    ensures { IfOk result (λ found. option_map (λ members. entries_seen members.entries) found
        ≡ as_object (seen object.now)) }
{
    match members_in(object) {
        Some(members) => Ok(Some(in_order(alloc, members)?)),
        None => Ok(None),
    }
}

/// Members by their names, in byte order, each name with its last value.
fn in_order<'t, 'v>(
    alloc: Global,
    members: &'t [Member<'v>],
) -> Result<BTreeMap<&'v str, &'t Tree<'v>>, Memory>
    ensures { IfOk result (λ found. entries_seen found.entries
        ≡ data_of_members (members_view members.now) no_members) }
{
    let mut found = BTreeMap::new(alloc);
    for member in members {
        drop(found.insert(member.0, &member.1)?);
    }
    Ok(found)
}
