ghost use Rattle.std.specs.Prelude.{◌≡◌, ◌+◌, ◌<◌, ◌≤◌, ℕ, Any, Contains, IfOk, IsOk, MatchOption};
ghost use Rattle.std.specs.Prelude.{OnErr, OnOk, length, slice_index_or, vec_len};
ghost use Rattle.std.specs.Vec.{vec_capacity};
ghost use Rattle.pl_locks.specs.declared.contender.Contender.{Contender};
ghost use Rattle.pl_locks.specs.Locks.{IsAt, Precedes};
ghost use Rattle.pl_base.specs.Firsts.{IsFirstAt};
ghost use Rattle.pl_locks.specs.Kept.{IsAbsent, IsOrdered, IsPutIn, without};

use crate::contender::Contender;
use pl_base::{ExactCopy, Memory};
use std::alloc::Global;

/// How many of the stages precede the given one.
fn place_of(stages: &[Contender], stage: &Contender) -> usize
    ensures within { result ≤ length stages.now }
    ensures below { (k : ℕ) (d : Contender) → k < result →
        Precedes (slice_index_or stages.now k d) stage.now }
    ensures above { (d : Contender) → result < length stages.now →
        ¬ Precedes (slice_index_or stages.now result d) stage.now }
{
    stages
        .iter()
        .position(|other| !other.precedes(stage))
        .unwrap_or(stages.len())
}

/// Puts a stage among the others, in its place by run and position. It takes memory only where
/// there is no room. After Memory the others are as before, and the stage is dropped.
pub fn put_in(stages: &mut Vec<Contender>, stage: Contender) -> Result<(), Memory>
    requires ordered { IsOrdered stages.old.items }
    requires absent { IsAbsent stage.run stage.position stages.old.items }
    ensures ok { OnOk result (IsPutIn stage stages.old.items stages.new.items) }
    ensures err { OnErr result (stages.new.items ≡ stages.old.items) }
    ensures room { vec_len stages.old < vec_capacity stages.old → IsOk result }
    ensures len { OnOk result (vec_len stages.new ≡ vec_len stages.old + 1) }
    ensures capacity { vec_capacity stages.old ≤ vec_capacity stages.new }
{
    let place = place_of(stages, &stage);
    stages.insert(place, stage)?;
    Ok(())
}

/// The place of the stage of that run at that position.
fn find_at(stages: &[Contender], run: u64, position: u32) -> Option<usize>
    ensures { MatchOption result (IsAbsent run position stages.now)
        (IsFirstAt (IsAt run position) stages.now) }
{
    stages.iter().position(|stage| stage.is_at(run, position))
}

/// Takes out the stage of that run at that position.
pub fn take_out(stages: &mut Vec<Contender>, run: u64, position: u32) -> Contender
    requires ordered { IsOrdered stages.old.items }
    requires present { Any (IsAt run position) stages.old.items }
    ensures is_at { IsAt run position result }
    ensures taken { Contains stages.old.items result }
    ensures others { stages.new.items ≡ without run position stages.old.items }
    ensures len { vec_len stages.new + 1 ≡ vec_len stages.old }
{
    match find_at(stages, run, position) {
        Some(place) => stages.remove(place),
        None => unreachable!(),
    }
}

/// Drops the stage of that run at that position, where it is there.
pub fn drop_out(stages: &mut Vec<Contender>, run: u64, position: u32)
    ensures others { stages.new.items ≡ without run position stages.old.items }
    ensures len { vec_len stages.new ≤ vec_len stages.old }
    ensures capacity { vec_capacity stages.new ≡ vec_capacity stages.old }
{
    stages.retain(|stage| !stage.is_at(run, position));
}

/// The same stages once more, with room for as many in all.
pub fn copies_of(alloc: Global, stages: &[Contender], room: usize) -> Result<Vec<Contender>, Memory>
    ensures items { IfOk result (λ copies. copies.items ≡ stages.now) }
    ensures len { IfOk result (λ copies. vec_len copies ≡ length stages.now) }
    ensures room { IfOk result (λ copies. room ≤ vec_capacity copies) }
{
    let mut copies = Vec::with_capacity(alloc, room)?;
    for stage in stages {
        copies.push(stage.copy(alloc)?)?;
    }
    Ok(copies)
}
