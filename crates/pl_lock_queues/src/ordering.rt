//! Stages in their order, by run and position.

ghost use Rattle.std.specs.Prelude.{◌≡◌, ◌+◌, ◌<◌, ◌≤◌, ◌↔◌, ℕ, IsTrue, length, slice_index_or};
ghost use Rattle.std.specs.Prelude.{vec_len};
ghost use Rattle.std.specs.Vec.{vec_capacity};
ghost use Rattle.pl_locks.specs.declared.contender.Contender.{Contender};
ghost use Rattle.pl_locks.specs.Kept.{IsAbsent, IsOrdered, IsPutIn};
ghost use Rattle.pl_locks.specs.Locks.{Precedes};

use pl_locks::Contender;

/// Whether a stage is of an earlier run, or stands at an earlier position of the same run.
fn precedes(stage: &Contender, other: &Contender) -> bool
    ensures { IsTrue result ↔ Precedes stage.now other.now }
{
    stage.run < other.run || (stage.run == other.run && stage.position < other.position)
}

/// How many of the stages precede the given one.
fn place_among(stages: &[Contender], stage: &Contender) -> usize
    ensures within { result ≤ length stages.now }
    ensures below { (k : ℕ) (d : Contender) → k < result →
        Precedes (slice_index_or stages.now k d) stage.now }
    ensures above { (d : Contender) → result < length stages.now →
        ¬ Precedes (slice_index_or stages.now result d) stage.now }
{
    stages
        .iter()
        .position(|other| !precedes(other, stage))
        .unwrap_or(stages.len())
}

/// Puts a stage among the others, among which there is room for it, in its place by run and
/// position. It takes no memory.
pub(crate) fn put_in(stages: &mut Vec<Contender>, stage: Contender)
    requires ordered { IsOrdered stages.old.items }
    requires absent { IsAbsent stage.run stage.position stages.old.items }
    requires room { vec_len stages.old < vec_capacity stages.old }
    ensures is { IsPutIn stage stages.old.items stages.new.items }
    ensures len { vec_len stages.new ≡ vec_len stages.old + 1 }
    ensures capacity { vec_capacity stages.old ≤ vec_capacity stages.new }
{
    let place = place_among(stages, &stage);
    match stages.insert(place, stage) {
        Ok(()) => {}
        Err(_) => unreachable!(),
    }
}
