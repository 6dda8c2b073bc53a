//! Which resources are held: a mark for each that a stage wants or holds.

ghost use Rattle.std.specs.Prelude.{◌≡◌, ◌||◌, ◌∷◌, [], true, OnOk, cond, is_some};
ghost use Rattle.std.specs.BTreeMap.{get};
ghost use Rattle.std.specs.List.{list_any};
ghost use Rattle.pl_base.specs.declared.resource.ResourceKey.{ResourceKey};
ghost use Rattle.pl_lock_queues.specs.Queues.{among, key_cmp, marked, wants};

use pl_base::{ExactCopy, Memory, ResourceKey};
use pl_locks::Contender;
use std::alloc::Global;
use std::collections::BTreeMap;

pub(crate) type Marks = BTreeMap<ResourceKey, bool>;

/// Whether a resource is held.
pub(crate) fn is_held(marks: &Marks, key: &ResourceKey) -> bool
    ensures { result ≡ marked marks.now key.now }
{
    match marks.get(key) {
        Some(held) => *held,
        None => false,
    }
}

/// Makes a mark for a resource that has none. What is held stays as it is, also after Memory.
fn make_mark(alloc: Global, marks: &mut Marks, key: &ResourceKey) -> Result<(), Memory>
    ensures same { (other : ResourceKey) → marked marks.new other ≡ marked marks.old other }
    ensures kept { (other : ResourceKey) → is_some (get key_cmp marks.old other) ≡ true →
        is_some (get key_cmp marks.new other) ≡ true }
    ensures ok { OnOk result (is_some (get key_cmp marks.new key.now) ≡ true) }
{
    if !marks.contains_key(key) {
        marks.insert(key.copy(alloc)?, false)?;
    }
    Ok(())
}

/// Makes a mark for each of some resources. What is held stays as it is, also after Memory.
pub(crate) fn make_marks(
    alloc: Global,
    marks: &mut Marks,
    keys: &[ResourceKey],
) -> Result<(), Memory>
    ensures same { (other : ResourceKey) → marked marks.new other ≡ marked marks.old other }
    ensures kept { (other : ResourceKey) → is_some (get key_cmp marks.old other) ≡ true →
        is_some (get key_cmp marks.new other) ≡ true }
    ensures ok { OnOk result ((other : ResourceKey) → among keys.now other ≡ true →
        is_some (get key_cmp marks.new other) ≡ true) }
{
    for key in keys {
        make_mark(alloc, marks, key)?;
    }
    Ok(())
}

/// Marks a resource that has a mark as held, or as not held. It takes no memory.
fn set_mark(marks: &mut Marks, key: &ResourceKey, held: bool)
    requires { is_some (get key_cmp marks.old key.now) ≡ true }
    ensures marked { (other : ResourceKey) → marked marks.new other ≡
        cond (among (key.now ∷ []) other) held (marked marks.old other) }
    ensures kept { (other : ResourceKey) → is_some (get key_cmp marks.new other) ≡
        is_some (get key_cmp marks.old other) }
{
    if let Some(mark) = marks.get_mut(key) {
        *mark = held;
    }
}

/// Marks resources that have marks as held. It takes no memory.
pub(crate) fn hold_all(marks: &mut Marks, keys: &[ResourceKey])
    requires { (key : ResourceKey) → among keys.now key ≡ true →
        is_some (get key_cmp marks.old key) ≡ true }
    ensures marked { (key : ResourceKey) → marked marks.new key ≡
        (marked marks.old key || among keys.now key) }
    ensures kept { (key : ResourceKey) → is_some (get key_cmp marks.new key) ≡
        is_some (get key_cmp marks.old key) }
{
    for key in keys {
        set_mark(marks, key, true);
    }
}

/// Marks each of some resources as held where one of these stages holds it. It takes no memory.
pub(crate) fn mark_anew(marks: &mut Marks, keys: &[ResourceKey], holders: &[Contender])
    requires { (key : ResourceKey) → among keys.now key ≡ true →
        is_some (get key_cmp marks.old key) ≡ true }
    ensures marked { (key : ResourceKey) → marked marks.new key ≡
        cond (among keys.now key) (list_any (wants key) holders.now) (marked marks.old key) }
    ensures kept { (key : ResourceKey) → is_some (get key_cmp marks.new key) ≡
        is_some (get key_cmp marks.old key) }
{
    for key in keys {
        let held = is_wanted(holders, key);
        set_mark(marks, key, held);
    }
}

/// Whether a resource is among some.
fn is_among(keys: &[ResourceKey], key: &ResourceKey) -> bool
    ensures { result ≡ among keys.now key.now }
{
    keys.iter().any(|own| own.cmp(key).is_eq())
}

/// Whether one of some stages uses a resource.
fn is_wanted(stages: &[Contender], key: &ResourceKey) -> bool
    ensures { result ≡ list_any (wants key.now) stages.now }
{
    stages
        .iter()
        .any(|stage| is_among(stage.resources.as_slice(), key))
}
