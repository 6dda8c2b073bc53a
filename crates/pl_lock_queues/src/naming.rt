//! Stages of which only the latest is to run, by pipeline and name.

ghost use Rattle.std.specs.Prelude.{◌≡◌, ◌||◌, ◌&&◌, not, IfOk, OnErr, OnOk};
ghost use Rattle.pl_lines.specs.Lines.{stands};
ghost use Rattle.pl_lock_queues.specs.Queues as spec;
ghost use Rattle.pl_lock_queues.specs.Queues.{is_named_at, name_cmp, place_cmp};
ghost use Rattle.pl_lock_queues.specs.declared.names.StageName.{StageName as Name};

use crate::names::StageName;
use crate::places::{Place, place_of};
use pl_base::{Behaviour, ExactCopy, Memory};
use pl_lines::Lines;
use pl_locks::Contender;
use std::alloc::Global;

/// The places of stages of which only the latest is to run, by pipeline and name.
pub(crate) type Names = Lines<StageName, Place>;

/// A stage's pipeline and its name.
pub(crate) fn name_of(alloc: Global, stage: &Contender) -> Result<StageName, Memory>
    ensures { IfOk result (λ name. name ≡ spec.name_of stage.now) }
{
    let pipeline = stage.pipeline.copy(alloc)?;
    let name = stage.name.copy(alloc)?;
    Ok(StageName { pipeline, name })
}

/// Puts a stage in the line of its name, where only the latest is to run. After Memory the same
/// places stand in the lines as before.
pub(crate) fn put_name(
    alloc: Global,
    names: &mut Names,
    name: &StageName,
    stage: &Contender,
) -> Result<(), Memory>
    requires { name.now ≡ spec.name_of stage.now }
    ensures ok { OnOk result ((key : Name) (p : spec.Place) →
        stands name_cmp place_cmp names.new.lines key p ≡
        (stands name_cmp place_cmp names.old.lines key p || is_named_at key p stage.now)) }
    ensures err { OnErr result ((key : Name) (p : spec.Place) →
        stands name_cmp place_cmp names.new.lines key p ≡
        stands name_cmp place_cmp names.old.lines key p) }
{
    match stage.behaviour {
        Behaviour::RunLatest => {
            names.add(alloc, name, place_of(stage))?;
            Ok(())
        }
        Behaviour::Sequential => Ok(()),
    }
}

/// Takes a stage out of the line of its name. It takes no memory.
pub(crate) fn drop_name(names: &mut Names, name: &StageName, stage: &Contender)
    requires { name.now ≡ spec.name_of stage.now }
    ensures { (key : Name) (p : spec.Place) → stands name_cmp place_cmp names.new.lines key p ≡
        (stands name_cmp place_cmp names.old.lines key p && not (is_named_at key p stage.now)) }
{
    match stage.behaviour {
        Behaviour::RunLatest => names.take(name, &place_of(stage)),
        Behaviour::Sequential => {}
    }
}

/// The same, of a stage that is given away and comes back: its name then needs no copy.
pub(crate) fn take_name(names: &mut Names, stage: Contender) -> Contender
    ensures same { result ≡ stage }
    ensures names { (key : Name) (p : spec.Place) → stands name_cmp place_cmp names.new.lines key p ≡
        (stands name_cmp place_cmp names.old.lines key p && not (is_named_at key p stage)) }
{
    match stage.behaviour {
        Behaviour::RunLatest => {
            let place = place_of(&stage);
            let name = StageName {
                pipeline: stage.pipeline,
                name: stage.name,
            };
            names.take(&name, &place);
            Contender {
                run: stage.run,
                position: stage.position,
                pipeline: name.pipeline,
                name: name.name,
                behaviour: stage.behaviour,
                resources: stage.resources,
            }
        }
        Behaviour::Sequential => stage,
    }
}
