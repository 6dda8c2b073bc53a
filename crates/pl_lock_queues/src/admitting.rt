//! Stages that become eligible, and stages that are so no longer, in the queues.

ghost use Rattle.std.specs.Prelude.{◌≡◌, ◌⊎◌, ◌↔◌, ◌&&◌, ◌||◌, false, true, not, Contains};
ghost use Rattle.std.specs.Prelude.{List, MatchOption, OnErr, OnOk};
ghost use Rattle.std.specs.BTreeSet.{contains};
ghost use Rattle.pl_lock_queues.specs.Queues as spec;
ghost use Rattle.pl_base.specs.declared.resource.ResourceKey.{ResourceKey as Key};
ghost use Rattle.pl_lines.specs.Lines.{stands};
ghost use Rattle.pl_lock_queues.specs.Queues.{AreGivingWay, AreWaiting, GivesWayAt, IsOrdered};
ghost use Rattle.pl_lock_queues.specs.Queues.{is_free_at, key_cmp};
ghost use Rattle.pl_lock_queues.specs.Queues.{place_cmp, waits_at};
ghost use Rattle.pl_locks.specs.Kept.{IsAbsent, IsPutIn, without};
ghost use Rattle.pl_locks.specs.Locks.{IsSuperseded};
ghost use Rattle.pl_locks.specs.declared.contender.Contender.{Contender as Stage};

use crate::places::{Place, place_of};
use crate::superseded::{add_giving_way, keep_giving_way};
use crate::waiting::{leave_all, wait_all};
use pl_base::{Memory, ResourceKey};
use pl_lines::Lines;
use pl_locks::Contender;
use std::alloc::Global;
use std::collections::BTreeSet;

/// Puts a stage's place among those that want no resource, where it wants none. After Memory they
/// are as before.
fn add_free(free: &mut BTreeSet<Place>, stage: &Contender) -> Result<(), Memory>
    ensures ok { OnOk result ((place : spec.Place) → contains place_cmp free.new place ≡
        (contains place_cmp free.old place || is_free_at place stage.now)) }
    ensures err { OnErr result ((place : spec.Place) → contains place_cmp free.new place ≡
        contains place_cmp free.old place) }
{
    if !stage.resources.is_empty() {
        return Ok(());
    }
    free.insert(place_of(stage))?;
    Ok(())
}

/// Takes a stage out of the lines, and from among those that want no resource. It takes no memory.
fn take_out(lines: &mut Lines<ResourceKey, Place>, free: &mut BTreeSet<Place>, stage: &Contender)
    ensures lines { (key : Key) (place : spec.Place) →
        stands key_cmp place_cmp lines.new.lines key place ≡
        (stands key_cmp place_cmp lines.old.lines key place && not (waits_at key place stage.now)) }
    ensures free { (place : spec.Place) → contains place_cmp free.new place ≡
        (contains place_cmp free.old place && not (is_free_at place stage.now)) }
{
    leave_all(lines, stage);
    take_free(free, stage);
}

/// Takes a stage from among those that want no resource, where it wants none. It takes no memory.
fn take_free(free: &mut BTreeSet<Place>, stage: &Contender)
    ensures { (place : spec.Place) → contains place_cmp free.new place ≡
        (contains place_cmp free.old place && not (is_free_at place stage.now)) }
{
    if !stage.resources.is_empty() {
        return;
    }
    free.remove(&place_of(stage));
}

/// Puts a stage among those that want no resource, where it wants none, and adds to those that give
/// way what does once it is eligible, by those of its name. After Memory both are as before.
fn add_others(
    eligible: &[Contender],
    free: &mut BTreeSet<Place>,
    superseded: &mut BTreeSet<Place>,
    named: Option<&BTreeSet<Place>>,
    stage: &Contender,
) -> Result<(), Memory>
    requires ordered { IsOrdered eligible.now }
    requires named { MatchOption named ((place : spec.Place) → ¬ GivesWayAt eligible.now stage.now place)
        (λ line. (place : spec.Place) → GivesWayAt eligible.now stage.now place →
        contains place_cmp line.now place ≡ true) }
    requires absent { contains place_cmp free.old (spec.place_of stage.now) ≡ false }
    requires giving_way { AreGivingWay eligible.now superseded.old }
    ensures free { OnOk result ((place : spec.Place) → contains place_cmp free.new place ≡
        (contains place_cmp free.old place || is_free_at place stage.now)) }
    ensures giving_way { OnOk result ((place : spec.Place) →
        (contains place_cmp superseded.new place ≡ true) ↔
        ((contains place_cmp superseded.old place ≡ true) ⊎
        (GivesWayAt eligible.now stage.now place ⊎
        ((spec.place_of stage.now ≡ place) × IsSuperseded eligible.now stage.now)))) }
    ensures free_err { OnErr result ((place : spec.Place) → contains place_cmp free.new place ≡
        contains place_cmp free.old place) }
    ensures giving_way_err { OnErr result (AreGivingWay eligible.now superseded.new) }
{
    add_free(free, stage)?;
    match add_giving_way(superseded, eligible, named, stage) {
        Ok(()) => Ok(()),
        Err(Memory) => {
            take_free(free, stage);
            Err(Memory)
        }
    }
}

/// Puts a stage into the queues of the eligible ones, among which it isn't yet. After Memory the
/// queues are as before.
pub(crate) fn admit(
    alloc: Global,
    eligible: &[Contender],
    lines: &mut Lines<ResourceKey, Place>,
    free: &mut BTreeSet<Place>,
    superseded: &mut BTreeSet<Place>,
    named: Option<&BTreeSet<Place>>,
    stage: &Contender,
) -> Result<(), Memory>
    requires ordered { IsOrdered eligible.now }
    requires named { MatchOption named ((place : spec.Place) → ¬ GivesWayAt eligible.now stage.now place)
        (λ line. (place : spec.Place) → GivesWayAt eligible.now stage.now place →
        contains place_cmp line.now place ≡ true) }
    requires absent { IsAbsent stage.now.run stage.now.position eligible.now }
    requires queues { AreWaiting eligible.now lines.old.lines free.old superseded.old }
    ensures ok { OnOk result ((more : List Stage) → IsPutIn stage.now eligible.now more →
        AreWaiting more lines.new.lines free.new superseded.new) }
    ensures err { OnErr result (AreWaiting eligible.now lines.new.lines free.new superseded.new) }
{
    wait_all(alloc, lines, stage)?;
    match add_others(eligible, free, superseded, named, stage) {
        Ok(()) => Ok(()),
        Err(Memory) => {
            leave_all(lines, stage);
            Err(Memory)
        }
    }
}

/// Takes a stage, which was taken out of the eligible ones, out of their queues. It takes no
/// memory.
pub(crate) fn dismiss(
    eligible: &[Contender],
    lines: &mut Lines<ResourceKey, Place>,
    free: &mut BTreeSet<Place>,
    superseded: &mut BTreeSet<Place>,
    stage: &Contender,
)
    requires { IsOrdered eligible.now }
    ensures { (before : List Stage) → IsOrdered before → Contains before stage.now →
        eligible.now ≡ without stage.now.run stage.now.position before →
        AreWaiting before lines.old.lines free.old superseded.old →
        AreWaiting eligible.now lines.new.lines free.new superseded.new }
{
    take_out(lines, free, stage);
    superseded.remove(&place_of(stage));
    keep_giving_way(superseded, eligible, stage.run);
}
