//! Stages in the lines of the resources that they want.

ghost use Rattle.std.specs.Prelude.{◌≡◌, ◌||◌, ◌&&◌, false, not, OnErr, OnOk};
ghost use Rattle.pl_base.specs.declared.resource.ResourceKey.{ResourceKey};
ghost use Rattle.pl_lines.specs.Lines.{stands};
ghost use Rattle.pl_lock_queues.specs.Queues as spec;
ghost use Rattle.pl_lock_queues.specs.Queues.{key_cmp, place_cmp, stand_at, waits_at};

use crate::places::{Place, place_of};
use pl_base::{Memory, ResourceKey};
use pl_lines::Lines;
use pl_locks::Contender;
use std::alloc::Global;

/// Puts a place into the lines of some resources. After Memory it stands in some of them.
fn add_all(
    alloc: Global,
    lines: &mut Lines<ResourceKey, Place>,
    keys: &[ResourceKey],
    place: Place,
) -> Result<(), Memory>
    ensures ok { OnOk result ((key : ResourceKey) (p : spec.Place) →
        stands key_cmp place_cmp lines.new.lines key p ≡
        (stands key_cmp place_cmp lines.old.lines key p || stand_at keys.now place key p)) }
    ensures err { OnErr result ((key : ResourceKey) (p : spec.Place) →
        stand_at keys.now place key p ≡ false →
        stands key_cmp place_cmp lines.new.lines key p ≡
        stands key_cmp place_cmp lines.old.lines key p) }
{
    for key in keys {
        lines.add(alloc, key, place)?;
    }
    Ok(())
}

/// Takes a place out of the lines of some resources. It takes no memory.
fn take_all(lines: &mut Lines<ResourceKey, Place>, keys: &[ResourceKey], place: Place)
    ensures { (key : ResourceKey) (p : spec.Place) →
        stands key_cmp place_cmp lines.new.lines key p ≡
        (stands key_cmp place_cmp lines.old.lines key p && not (stand_at keys.now place key p)) }
{
    for key in keys {
        lines.take(key, &place);
    }
}

/// Puts a stage, whose place stands in no line, into those of the resources that it wants. After
/// Memory the same places stand in the lines as before.
pub(crate) fn wait_all(
    alloc: Global,
    lines: &mut Lines<ResourceKey, Place>,
    stage: &Contender,
) -> Result<(), Memory>
    requires { (key : ResourceKey) → stands key_cmp place_cmp lines.old.lines key
        (spec.place_of stage.now) ≡ false }
    ensures ok { OnOk result ((key : ResourceKey) (p : spec.Place) →
        stands key_cmp place_cmp lines.new.lines key p ≡
        (stands key_cmp place_cmp lines.old.lines key p || waits_at key p stage.now)) }
    ensures err { OnErr result ((key : ResourceKey) (p : spec.Place) →
        stands key_cmp place_cmp lines.new.lines key p ≡
        stands key_cmp place_cmp lines.old.lines key p) }
{
    let keys = stage.resources.as_slice();
    match add_all(alloc, lines, keys, place_of(stage)) {
        Ok(()) => Ok(()),
        Err(Memory) => {
            take_all(lines, keys, place_of(stage));
            Err(Memory)
        }
    }
}

/// Takes a stage out of the lines of the resources that it wants. It takes no memory.
pub(crate) fn leave_all(lines: &mut Lines<ResourceKey, Place>, stage: &Contender)
    ensures { (key : ResourceKey) (p : spec.Place) →
        stands key_cmp place_cmp lines.new.lines key p ≡
        (stands key_cmp place_cmp lines.old.lines key p && not (waits_at key p stage.now)) }
{
    take_all(lines, stage.resources.as_slice(), place_of(stage));
}
