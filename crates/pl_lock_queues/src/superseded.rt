//! Which eligible stages give way to others of them.

ghost use Rattle.std.specs.Prelude.{◌≡◌, ◌≤◌, ◌⊎◌, ◌↔◌, true, IsTrue, MatchOption, OnErr, OnOk};
ghost use Rattle.std.specs.BTreeSet.{contains};
ghost use Rattle.pl_lock_queues.specs.Queues as spec;
ghost use Rattle.pl_lock_queues.specs.Queues.{AreGivingWay, GivesWayAt, IsSupersededAt, place_cmp};
ghost use Rattle.pl_lock_queues.specs.Queues.{place_of};
ghost use Rattle.pl_locks.specs.Locks.{GivesWay, IsSuperseded};

use crate::places::{self, Place, find, gives_way, is_superseded, is_superseded_at};
use pl_base::Memory;
use pl_locks::Contender;
use std::collections::BTreeSet;

/// Adds the places of the eligible stages that give way to one, which are all in the line of its
/// name, where there is one. After Memory some of them are added.
fn add_earlier(
    superseded: &mut BTreeSet<Place>,
    eligible: &[Contender],
    named: Option<&BTreeSet<Place>>,
    later: &Contender,
) -> Result<(), Memory>
    requires ordered { spec.IsOrdered eligible.now }
    requires named { MatchOption named ((place : spec.Place) → ¬ GivesWayAt eligible.now later.now place)
        (λ line. (place : spec.Place) → GivesWayAt eligible.now later.now place →
        contains place_cmp line.now place ≡ true) }
    ensures ok { OnOk result ((place : spec.Place) → (contains place_cmp superseded.new place ≡ true)
        ↔ ((contains place_cmp superseded.old place ≡ true) ⊎
        GivesWayAt eligible.now later.now place)) }
    ensures err { OnErr result ((place : spec.Place) →
        (contains place_cmp superseded.old place ≡ true →
        contains place_cmp superseded.new place ≡ true) ×
        (contains place_cmp superseded.new place ≡ true →
        (contains place_cmp superseded.old place ≡ true) ⊎
        GivesWayAt eligible.now later.now place)) }
{
    match named {
        Some(line) => add_among(superseded, eligible, line, later),
        None => Ok(()),
    }
}

/// The same, of the places in a line.
fn add_among(
    superseded: &mut BTreeSet<Place>,
    eligible: &[Contender],
    line: &BTreeSet<Place>,
    later: &Contender,
) -> Result<(), Memory>
    requires ordered { spec.IsOrdered eligible.now }
    requires named { (place : spec.Place) → GivesWayAt eligible.now later.now place →
        contains place_cmp line.now place ≡ true }
    ensures ok { OnOk result ((place : spec.Place) → (contains place_cmp superseded.new place ≡ true)
        ↔ ((contains place_cmp superseded.old place ≡ true) ⊎
        GivesWayAt eligible.now later.now place)) }
    ensures err { OnErr result ((place : spec.Place) →
        (contains place_cmp superseded.old place ≡ true →
        contains place_cmp superseded.new place ≡ true) ×
        (contains place_cmp superseded.new place ≡ true →
        (contains place_cmp superseded.old place ≡ true) ⊎
        GivesWayAt eligible.now later.now place)) }
{
    for place in line {
        add_at(superseded, eligible, *place, later)?;
    }
    Ok(())
}

/// Adds a place where the eligible stage there gives way to that one. After Memory the places are
/// as before.
fn add_at(
    superseded: &mut BTreeSet<Place>,
    eligible: &[Contender],
    place: Place,
    later: &Contender,
) -> Result<(), Memory>
    requires { spec.IsOrdered eligible.now }
    ensures ok { OnOk result ((p : spec.Place) → (contains place_cmp superseded.new p ≡ true)
        ↔ ((contains place_cmp superseded.old p ≡ true) ⊎
        ((place ≡ p) × GivesWayAt eligible.now later.now p))) }
    ensures err { OnErr result ((p : spec.Place) → (contains place_cmp superseded.new p ≡ true)
        ↔ (contains place_cmp superseded.old p ≡ true)) }
{
    match find(eligible, place.0, place.1) {
        Some(at) => add_one(superseded, &eligible[at], later),
        None => Ok(()),
    }
}

/// Adds the place of a stage where it gives way to that one. After Memory the places are as before.
fn add_one(
    superseded: &mut BTreeSet<Place>,
    stage: &Contender,
    later: &Contender,
) -> Result<(), Memory>
    ensures ok { OnOk result ((place : spec.Place) → (contains place_cmp superseded.new place ≡ true)
        ↔ ((contains place_cmp superseded.old place ≡ true) ⊎
        ((place_of stage.now ≡ place) × GivesWay stage.now later.now))) }
    ensures err { OnErr result ((place : spec.Place) → (contains place_cmp superseded.new place ≡ true)
        ↔ (contains place_cmp superseded.old place ≡ true)) }
{
    if !gives_way(stage, later) {
        return Ok(());
    }
    superseded.insert(places::place_of(stage))?;
    Ok(())
}

/// Whether a place isn't before a run, or its stage gives way to an eligible one.
fn stays(eligible: &[Contender], run: u64, place: Place) -> bool
    requires { spec.IsOrdered eligible.now }
    ensures { IsTrue result ↔ ((run ≤ place.0) ⊎ IsSupersededAt eligible.now place) }
{
    run <= place.0 || is_superseded_at(eligible, place)
}

/// Leaves of the places before a run those alone whose stages give way to one of the eligible ones.
/// It takes no memory.
pub(crate) fn keep_giving_way(superseded: &mut BTreeSet<Place>, eligible: &[Contender], run: u64)
    requires { spec.IsOrdered eligible.now }
    ensures { (place : spec.Place) → (contains place_cmp superseded.new place ≡ true) ↔
        ((contains place_cmp superseded.old place ≡ true) ×
        ((run ≤ place.0) ⊎ IsSupersededAt eligible.now place)) }
{
    superseded.retain(|place| stays(eligible, run, *place));
}

/// Adds the places of the eligible stages that give way to one, and its own where it gives way to
/// one of them. After Memory the places are as before.
pub(crate) fn add_giving_way(
    superseded: &mut BTreeSet<Place>,
    eligible: &[Contender],
    named: Option<&BTreeSet<Place>>,
    stage: &Contender,
) -> Result<(), Memory>
    requires ordered { spec.IsOrdered eligible.now }
    requires named { MatchOption named ((place : spec.Place) → ¬ GivesWayAt eligible.now stage.now place)
        (λ line. (place : spec.Place) → GivesWayAt eligible.now stage.now place →
        contains place_cmp line.now place ≡ true) }
    requires giving_way { AreGivingWay eligible.now superseded.old }
    ensures ok { OnOk result ((place : spec.Place) → (contains place_cmp superseded.new place ≡ true)
        ↔ ((contains place_cmp superseded.old place ≡ true) ⊎
        (GivesWayAt eligible.now stage.now place ⊎
        ((place_of stage.now ≡ place) × IsSuperseded eligible.now stage.now)))) }
    ensures err { OnErr result (AreGivingWay eligible.now superseded.new) }
{
    match add_earlier(superseded, eligible, named, stage) {
        Ok(()) => add_own(superseded, eligible, stage),
        Err(Memory) => {
            keep_giving_way(superseded, eligible, stage.run);
            Err(Memory)
        }
    }
}

/// Adds the place of a stage where it gives way to an eligible one. After Memory the places are
/// those of the eligible stages alone that give way to others of them.
fn add_own(
    superseded: &mut BTreeSet<Place>,
    eligible: &[Contender],
    stage: &Contender,
) -> Result<(), Memory>
    requires ordered { spec.IsOrdered eligible.now }
    requires among { (place : spec.Place) → IsSupersededAt eligible.now place →
        contains place_cmp superseded.old place ≡ true }
    requires only { (place : spec.Place) → contains place_cmp superseded.old place ≡ true →
        IsSupersededAt eligible.now place ⊎ GivesWayAt eligible.now stage.now place }
    ensures ok { OnOk result ((place : spec.Place) → (contains place_cmp superseded.new place ≡ true)
        ↔ ((contains place_cmp superseded.old place ≡ true) ⊎
        ((place_of stage.now ≡ place) × IsSuperseded eligible.now stage.now))) }
    ensures err { OnErr result (AreGivingWay eligible.now superseded.new) }
{
    if !is_superseded(eligible, stage) {
        return Ok(());
    }
    match superseded.insert(places::place_of(stage)) {
        Ok(_) => Ok(()),
        Err(_) => {
            keep_giving_way(superseded, eligible, stage.run);
            Err(Memory)
        }
    }
}
