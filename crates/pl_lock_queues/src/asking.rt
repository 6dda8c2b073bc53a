//! Which stage starts next, and which gives way, by the queues.

ghost use Rattle.std.specs.Prelude.{◌≡◌, ◌<◌, ◌⊎◌, ◌↔◌, ℕ, true, All, Contains, IsTrue, MatchOption};
ghost use Rattle.std.specs.Prelude.{Some, is_some, length, slice_index_or};
ghost use Rattle.std.specs.BTreeMap.{get};
ghost use Rattle.std.specs.BTreeSet.{contains};
ghost use Rattle.std.specs.declared.cmp.Ordering.TheVariants.{Less};
ghost use Rattle.pl_base.specs.Firsts.{IsFirstAt};
ghost use Rattle.pl_base.specs.declared.resource.ResourceKey.{ResourceKey as Key};
ghost use Rattle.pl_lines.specs.Lines.{IsFirstIn};
ghost use Rattle.pl_lock_queues.specs.Queues as spec;
ghost use Rattle.pl_lock_queues.specs.Asked.{IsClear, IsUnblockedAt, IsUpTo};
ghost use Rattle.pl_lock_queues.specs.Queues.{IsOrdered, IsSupersededAt, key_cmp, place_cmp};
ghost use Rattle.pl_locks.specs.Locks.{GivesWay, IsAt, IsLeastLaterRun, IsLeastSuperseded};
ghost use Rattle.pl_locks.specs.Locks.{IsSuperseded};
ghost use Rattle.pl_locks.specs.declared.contender.Contender.{Contender as Stage};

use crate::marks::{Marks, is_held};
use crate::places::{Place, find, gives_way};
use pl_base::ResourceKey;
use pl_lines::Lines;
use pl_locks::Contender;
use std::collections::BTreeSet;

/// Whether a place is the first in a resource's line.
fn is_first(lines: &Lines<ResourceKey, Place>, key: &ResourceKey, place: Place) -> bool
    ensures { IsTrue result ↔ IsFirstIn key_cmp place_cmp lines.now.lines key.now place }
{
    match lines.first(key) {
        Some(first) => *first == place,
        None => false,
    }
}

/// Whether nobody holds a resource, and a place is the first in its line.
fn is_clear(
    lines: &Lines<ResourceKey, Place>,
    marks: &Marks,
    place: Place,
    key: &ResourceKey,
) -> bool
    ensures { IsTrue result ↔ IsClear lines.now.lines marks.now place key.now }
{
    !is_held(marks, key) && is_first(lines, key, place)
}

/// The same of each of some resources.
fn are_clear(
    lines: &Lines<ResourceKey, Place>,
    marks: &Marks,
    place: Place,
    keys: &[ResourceKey],
) -> bool
    ensures { IsTrue result ↔ All (IsClear lines.now.lines marks.now place) keys.now }
{
    keys.iter().all(|key| is_clear(lines, marks, place, key))
}

/// Whether the eligible stage at a place is the first at each resource that it wants, and nobody
/// holds one of them.
fn is_unblocked(
    eligible: &[Contender],
    lines: &Lines<ResourceKey, Place>,
    marks: &Marks,
    place: Place,
) -> bool
    requires { IsOrdered eligible.now }
    ensures { IsTrue result ↔ IsUnblockedAt eligible.now lines.now.lines marks.now place }
{
    match find(eligible, place.0, place.1) {
        Some(at) => are_clear(lines, marks, place, eligible[at].resources.as_slice()),
        None => false,
    }
}

/// Whether a place is of an earlier run, or of an earlier position of the same run.
fn is_before(one: Place, other: Place) -> bool
    ensures { IsTrue result ↔ ((one.0 < other.0) ⊎ ((one.0 ≡ other.0) × (one.1 < other.1))) }
{
    one.0 < other.0 || (one.0 == other.0 && one.1 < other.1)
}

/// The lesser of two places.
fn least_of(one: Place, other: Place) -> Place
    ensures is { (result ≡ one) ⊎ (result ≡ other) }
    ensures one { ¬ (place_cmp one result ≡ Less) }
    ensures other { ¬ (place_cmp other result ≡ Less) }
{
    if is_before(one, other) { one } else { other }
}

/// The lesser of two places, where there are two.
fn lesser(best: Option<Place>, place: Place) -> Place
    ensures is { (Some result ≡ best) ⊎ (result ≡ place) }
    ensures kept { (other : spec.Place) → IsUpTo best other → IsUpTo (Some result) other }
    ensures here { IsUpTo (Some result) place }
{
    match best {
        Some(other) => least_of(other, place),
        None => place,
    }
}

/// The lesser of a place and of one more, where that one's stage is unblocked.
fn if_unblocked(
    eligible: &[Contender],
    lines: &Lines<ResourceKey, Place>,
    marks: &Marks,
    best: Option<Place>,
    place: Place,
) -> Option<Place>
    requires { IsOrdered eligible.now }
    ensures is { (p : spec.Place) → result ≡ Some p → (best ≡ Some p) ⊎
        IsUnblockedAt eligible.now lines.now.lines marks.now p }
    ensures kept { (p : spec.Place) → IsUpTo best p → IsUpTo result p }
    ensures here { IsUnblockedAt eligible.now lines.now.lines marks.now place →
        IsUpTo result place }
{
    if is_unblocked(eligible, lines, marks, place) {
        Some(lesser(best, place))
    } else {
        best
    }
}

/// The least of a place and of the first in a resource's line, where nobody holds it and that one's
/// stage is unblocked.
fn better(
    eligible: &[Contender],
    lines: &Lines<ResourceKey, Place>,
    marks: &Marks,
    best: Option<Place>,
    key: &ResourceKey,
) -> Option<Place>
    requires { IsOrdered eligible.now }
    ensures is { (place : spec.Place) → result ≡ Some place → (best ≡ Some place) ⊎
        IsUnblockedAt eligible.now lines.now.lines marks.now place }
    ensures kept { (place : spec.Place) → IsUpTo best place → IsUpTo result place }
    ensures here { (place : spec.Place) → IsClear lines.now.lines marks.now place key.now →
        IsUnblockedAt eligible.now lines.now.lines marks.now place → IsUpTo result place }
{
    if is_held(marks, key) {
        return best;
    }
    match lines.first(key) {
        Some(place) => if_unblocked(eligible, lines, marks, best, *place),
        None => best,
    }
}

/// The least of the places of stages that want no resource, and of those that are unblocked. It
/// looks at the first in the line of each resource that nobody holds, and at no other place.
pub(crate) fn least_unblocked(
    eligible: &[Contender],
    lines: &Lines<ResourceKey, Place>,
    marks: &Marks,
    free: &BTreeSet<Place>,
) -> Option<Place>
    requires { IsOrdered eligible.now }
    ensures is { (place : spec.Place) → result ≡ Some place →
        (contains place_cmp free.now place ≡ true) ⊎
        IsUnblockedAt eligible.now lines.now.lines marks.now place }
    ensures free { (place : spec.Place) → contains place_cmp free.now place ≡ true →
        IsUpTo result place }
    ensures unblocked { (place : spec.Place) (key : Key) →
        is_some (get key_cmp marks.now key) ≡ true → IsClear lines.now.lines marks.now place key →
        IsUnblockedAt eligible.now lines.now.lines marks.now place → IsUpTo result place }
{
    let mut best = first_of(free);
    for key in marks.keys() {
        best = better(eligible, lines, marks, best, key);
    }
    best
}

/// The least of some places.
fn first_of(places: &BTreeSet<Place>) -> Option<Place>
    ensures is { (place : spec.Place) → result ≡ Some place →
        contains place_cmp places.now place ≡ true }
    ensures least { (place : spec.Place) → contains place_cmp places.now place ≡ true →
        IsUpTo result place }
{
    match places.first() {
        Some(place) => Some(*place),
        None => None,
    }
}

/// Where the first eligible stage is to which a stage gives way.
fn first_later(eligible: &[Contender], stage: &Contender) -> Option<usize>
    ensures { MatchOption result (¬ IsSuperseded eligible.now stage.now)
        (IsFirstAt (GivesWay stage.now) eligible.now) }
{
    eligible.iter().position(|later| gives_way(stage, later))
}

/// The eligible stage at a place, which is the least that gives way, and the least run to whose
/// stage it does.
pub(crate) fn told_at(eligible: &[Contender], place: Place) -> (u64, u32, u64)
    requires ordered { IsOrdered eligible.now }
    requires there { IsSupersededAt eligible.now place }
    requires least { (stage : Stage) → Contains eligible.now stage →
        IsSuperseded eligible.now stage → ¬ (place_cmp (spec.place_of stage) place ≡ Less) }
    ensures { (stage : Stage) × (IsLeastSuperseded eligible.now stage) ×
        (IsAt result.0 result.1 stage) × (IsLeastLaterRun eligible.now stage result.2) }
{
    match find(eligible, place.0, place.1) {
        Some(at) => told_of(eligible, at),
        None => unreachable!(),
    }
}

/// The same of the eligible stage that is told by its place in the list.
fn told_of(eligible: &[Contender], at: usize) -> (u64, u32, u64)
    requires ordered { IsOrdered eligible.now }
    requires within { at < length eligible.now }
    requires gives { (d : Stage) → IsSuperseded eligible.now (slice_index_or eligible.now at d) }
    requires none { (k : ℕ) (d : Stage) → k < at →
        ¬ IsSuperseded eligible.now (slice_index_or eligible.now k d) }
    ensures { (stage : Stage) × (IsLeastSuperseded eligible.now stage) ×
        (IsAt result.0 result.1 stage) × (IsLeastLaterRun eligible.now stage result.2) }
{
    let stage = &eligible[at];
    match first_later(eligible, stage) {
        Some(later) => (stage.run, stage.position, eligible[later].run),
        None => unreachable!(),
    }
}
