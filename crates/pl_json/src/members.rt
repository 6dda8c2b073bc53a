ghost use Rattle.std.specs.Prelude.{◌≡◌, [], ◌∷◌, map, IfOk};
ghost use Rattle.pl_json.specs.Members.{ascends, in_order, is_in_order, member, names_of};
ghost use Rattle.pl_json.specs.Entries.{entries_of};

use pl_base::{List, Memory, Text};
use std::alloc::Global;
use std::cmp::Ordering;
use std::collections::BTreeMap;
use std::marker::Model;

/// A member of an object: its name and its value.
#[derive(Debug, Drop)]
pub struct Member<T> {
    pub name: Text,
    pub value: T,
}

/// The members of an object, each name once and in byte order, which contracts see as the list of
/// them.
#[derive(Debug, Drop)]
pub struct Members<T> {
    members: List<Member<T>>,
}

impl<T> Model for Members<T> {
    ghost use Rattle.std.specs.Prelude.{List as list, ◌≡◌, true};
    ghost use Rattle.pl_json.specs.Members.{coded_members, is_in_order, names_of};
    ghost use Rattle.pl_json.specs.declared.members.Member.{Member};

    ghost Value = { list (Member T) };

    ghost coded = { coded_members T.code };

    ghost view = { λ members. members.members };

    ghost invariant = { λ members. is_in_order (names_of members.members) ≡ true };
}

impl<T> Member<T> {
    /// A member with this name.
    pub fn new(alloc: Global, name: &str, value: T) -> Result<Member<T>, Memory>
    where
        T: Drop,
        ensures { IfOk result (λ one. one ≡ member name.now value) }
    {
        let name = Text::from_str(alloc, name)?;
        Ok(Member { name, value })
    }
}

impl<T> Members<T> {
    /// No member. It takes no memory.
    pub fn new(alloc: Global) -> Members<T>
        ensures { result ≡ [] }
    {
        Members {
            members: List::new(alloc),
        }
    }

    /// The members, in byte order of their names.
    pub fn as_slice(&self) -> &[Member<T>]
        ensures { result.now ≡ self.now }
    {
        self.members.as_slice()
    }
}

impl<T: Drop> Members<T> {
    /// One member alone.
    pub fn one(alloc: Global, one: Member<T>) -> Result<Members<T>, Memory>
        ensures { IfOk result (λ members. members ≡ one ∷ []) }
    {
        let mut members = List::new(alloc);
        members.push(one)?;
        Ok(Members { members })
    }

    /// These members in byte order of their names; of one name the last counts. Members that stand
    /// in that order already are taken over, without memory.
    pub fn in_order(alloc: Global, members: List<Member<T>>) -> Result<Members<T>, Memory>
        ensures { IfOk result (λ sorted. sorted ≡ in_order members) }
    {
        if is_in_order(members.as_slice()) {
            return Ok(Members { members });
        }
        let members = listed(alloc, by_name(alloc, members)?)?;
        Ok(Members { members })
    }
}

/// Whether each member's name stands before the next one's.
fn is_in_order<T>(members: &[Member<T>]) -> bool
    ensures { result ≡ is_in_order (names_of members.now) }
{
    match members {
        [] => true,
        [first, rest @ ..] => ascends(first, rest),
    }
}

/// Whether each member's name stands before the next one's, from this one on.
fn ascends<T>(first: &Member<T>, rest: &[Member<T>]) -> bool
    ensures { result ≡ ascends first.now.name (names_of rest.now) }
{
    let mut last = first;
    for member in rest {
        match last.name.cmp(&member.name) {
            Ordering::Less => last = member,
            _ => return false,
        }
    }
    true
}

/// The values of members by their names; of one name the last.
#[tactic(auto, using(crate::proofs::Ordering::entries_put, crate::proofs::Ordering::put_all_last))]
fn by_name<T: Drop>(alloc: Global, members: List<Member<T>>) -> Result<BTreeMap<Text, T>, Memory>
    ensures { IfOk result (λ by_name. by_name.entries ≡ entries_of (in_order members)) }
{
    let mut by_name = BTreeMap::new(alloc);
    for member in members.into_vec() {
        let Member { name, value } = member;
        drop(by_name.insert(name, value)?);
    }
    Ok(by_name)
}

/// What stands by names as members, in order.
fn listed<T: Drop>(alloc: Global, by_name: BTreeMap<Text, T>) -> Result<List<Member<T>>, Memory>
    ensures { IfOk result (λ members. members ≡ map (λ entry. member entry.0 entry.1)
        by_name.entries) }
{
    let mut members = Vec::with_capacity(alloc, by_name.len())?;
    for (name, value) in by_name {
        members.push(Member { name, value })?;
    }
    Ok(List::from_vec(members))
}
