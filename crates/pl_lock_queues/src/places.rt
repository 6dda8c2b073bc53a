//! Stages and their places: what is asked of one stage, or of two.

ghost use Rattle.std.specs.Prelude.{◌≡◌, ◌↔◌, Contains, IsTrue, MatchOption};
ghost use Rattle.pl_base.specs.Firsts.{IsFirstAt};
ghost use Rattle.pl_lock_queues.specs.Queues as spec;
ghost use Rattle.pl_locks.specs.Kept.{IsAbsent};
ghost use Rattle.pl_locks.specs.Locks.{GivesWay, IsAt, IsSuperseded, Shares};

use pl_base::{Behaviour, ResourceKey};
use pl_locks::Contender;

/// The number of a run, and a position in it.
pub(crate) type Place = (u64, u32);

/// Where a stage stands in its run.
pub(crate) fn place_of(stage: &Contender) -> Place
    ensures { result ≡ spec.place_of stage.now }
{
    (stage.run, stage.position)
}

/// Where the stage of that run at that position is among these.
pub(crate) fn find(stages: &[Contender], run: u64, position: u32) -> Option<usize>
    ensures { MatchOption result (IsAbsent run position stages.now)
        (IsFirstAt (IsAt run position) stages.now) }
{
    stages.iter().position(|stage| is_at(stage, run, position))
}

/// Whether no stage of that run is among them at that position.
pub(crate) fn is_absent(stages: &[Contender], run: u64, position: u32) -> bool
    ensures { IsTrue result ↔ IsAbsent run position stages.now }
{
    !stages.iter().any(|stage| is_at(stage, run, position))
}

/// Whether this is the stage of that run at that position.
fn is_at(stage: &Contender, run: u64, position: u32) -> bool
    ensures { IsTrue result ↔ IsAt run position stage.now }
{
    stage.run == run && stage.position == position
}

/// Whether a stage uses an exclusive resource.
fn uses(stage: &Contender, resource: &ResourceKey) -> bool
    ensures { IsTrue result ↔ Contains stage.now.resources resource.now }
{
    stage.resources.as_slice().contains(resource)
}

/// Whether both stages use one exclusive resource.
fn shares(stage: &Contender, other: &Contender) -> bool
    ensures { IsTrue result ↔ Shares stage.now other.now }
{
    stage
        .resources
        .as_slice()
        .iter()
        .any(|resource| uses(other, resource))
}

/// Whether a stage gives way to that one once both are eligible.
pub(crate) fn gives_way(stage: &Contender, later: &Contender) -> bool
    ensures { IsTrue result ↔ GivesWay stage.now later.now }
{
    stage.behaviour == Behaviour::RunLatest
        && stage.run < later.run
        && stage.pipeline == later.pipeline
        && stage.name == later.name
        && shares(stage, later)
}

/// Whether a stage gives way to an eligible one.
pub(crate) fn is_superseded(eligible: &[Contender], stage: &Contender) -> bool
    ensures { IsTrue result ↔ IsSuperseded eligible.now stage.now }
{
    eligible.iter().any(|later| gives_way(stage, later))
}

/// Whether the eligible stage at a place gives way to another of them.
pub(crate) fn is_superseded_at(eligible: &[Contender], place: Place) -> bool
    requires { spec.IsOrdered eligible.now }
    ensures { IsTrue result ↔ spec.IsSupersededAt eligible.now place }
{
    match find(eligible, place.0, place.1) {
        Some(at) => is_superseded(eligible, &eligible[at]),
        None => false,
    }
}
