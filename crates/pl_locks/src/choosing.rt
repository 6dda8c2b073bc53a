ghost use Rattle.std.specs.Prelude.{◌≢◌, ◌↔◌, [], All, Contains, IsSome, IsTrue, MatchOption};
ghost use Rattle.pl_locks.specs.declared.contender.Contender.{Contender};
ghost use Rattle.pl_locks.specs.Locks.{ComesFirst, GivesWay, IsAt, IsBehind, IsHeld};
ghost use Rattle.pl_locks.specs.Locks.{IsLeastSuperseded, IsLeastLaterRun, IsNext, IsSuperseded};
ghost use Rattle.pl_locks.specs.Locks.{MayStart};
ghost use Rattle.pl_base.specs.Firsts.{IsFirstAt};
ghost use Rattle.pl_locks.specs.Kept.{IsAbsent, IsOrdered};

use crate::contender::Contender;

/// Whether a stage gives way to an eligible one.
fn is_superseded(eligible: &[Contender], stage: &Contender) -> bool
    ensures { IsTrue result ↔ IsSuperseded eligible.now stage.now }
{
    eligible.iter().any(|later| stage.gives_way(later))
}

/// Whether no stage of that run is among them at that position.
pub fn is_absent(stages: &[Contender], run: u64, position: u32) -> bool
    ensures { IsTrue result ↔ IsAbsent run position stages.now }
{
    !stages.iter().any(|stage| stage.is_at(run, position))
}

/// Whether some holder has one of a stage's resources.
fn is_held(holders: &[Contender], stage: &Contender) -> bool
    ensures { IsTrue result ↔ IsHeld holders.now stage.now }
{
    holders.iter().any(|holder| stage.shares(holder))
}

/// Whether `other`, of an earlier run or place, comes before `stage` at a resource that both want:
/// it is before it, shares an exclusive resource with it, and isn't superseded by one of the
/// `eligible` stages. It takes no memory.
pub fn comes_first(eligible: &[Contender], other: &Contender, stage: &Contender) -> bool
    ensures { IsTrue result ↔ ComesFirst eligible.now other.now stage.now }
{
    other.precedes(stage) && other.shares(stage) && !is_superseded(eligible, other)
}

/// Whether an earlier eligible stage, which isn't superseded, wants one of a stage's resources.
fn is_behind(eligible: &[Contender], stage: &Contender) -> bool
    ensures { IsTrue result ↔ IsBehind eligible.now stage.now }
{
    eligible
        .iter()
        .any(|other| comes_first(eligible, other, stage))
}

/// Whether nothing stands in a stage's way.
fn may_start(eligible: &[Contender], holders: &[Contender], stage: &Contender) -> bool
    ensures { IsTrue result ↔ MayStart eligible.now holders.now stage.now }
{
    !is_superseded(eligible, stage) && !is_held(holders, stage) && !is_behind(eligible, stage)
}

/// The run and the position of the least of the `eligible` stages, which ascend by both, in whose
/// way nothing stands: it isn't superseded, none of the `holders` has a resource of it, and no
/// earlier one that isn't superseded wants one. None where there is no such stage. There is one
/// where some stage is eligible and no holder has a resource of an eligible one. Of the holders
/// nothing is asked. It takes no memory.
pub fn next_of(eligible: &[Contender], holders: &[Contender]) -> Option<(u64, u32)>
    requires { IsOrdered eligible.now }
    ensures next { MatchOption result
        (All (λ stage. ¬ MayStart eligible.now holders.now stage) eligible.now)
        (λ told. (stage : Contender) × IsNext eligible.now holders.now stage ×
        IsAt told.0 told.1 stage) }
    ensures some { (stage : Contender) → Contains eligible.now stage →
        MayStart eligible.now holders.now stage → IsSome result }
    ensures progress { eligible.now ≢ [] →
        All (λ stage. ¬ IsHeld holders.now stage) eligible.now → IsSome result }
{
    for stage in eligible {
        if may_start(eligible, holders, stage) {
            return Some((stage.run, stage.position));
        }
    }
    None
}

/// The first place of an eligible stage to which a stage gives way.
fn first_superseding(eligible: &[Contender], stage: &Contender) -> Option<usize>
    ensures { MatchOption result (¬ IsSuperseded eligible.now stage.now)
        (IsFirstAt (GivesWay stage.now) eligible.now) }
{
    eligible.iter().position(|later| stage.gives_way(later))
}

/// The least of the `eligible` stages, which ascend by run and position, that is superseded, by its
/// run and position, and the least run to whose stage it gives way; or None where none is. It takes
/// no memory.
pub fn least_superseded(eligible: &[Contender]) -> Option<(u64, u32, u64)>
    requires { IsOrdered eligible.now }
    ensures { MatchOption result (All (λ stage. ¬ IsSuperseded eligible.now stage) eligible.now)
        (λ told. (stage : Contender) × (IsLeastSuperseded eligible.now stage) ×
        (IsAt told.0 told.1 stage) × (IsLeastLaterRun eligible.now stage told.2)) }
{
    for stage in eligible {
        if let Some(place) = first_superseding(eligible, stage) {
            return Some((stage.run, stage.position, eligible[place].run));
        }
    }
    None
}
