//! Which stage starts next, by the resources that those before it have taken.

ghost use Rattle.std.specs.Prelude.{◌≡◌, ◌||◌, All, IfOk, MatchOption, OnOk};
ghost use Rattle.std.specs.BTreeSet.{contains};
ghost use Rattle.pl_base.specs.declared.resource.ResourceKey.{ResourceKey};
ghost use Rattle.pl_claims.specs.Claims.{AreTaken, key_cmp, wants, wants_taken};
ghost use Rattle.pl_locks.specs.declared.contender.Contender.{Contender};
ghost use Rattle.pl_locks.specs.Kept.{IsOrdered};
ghost use Rattle.pl_locks.specs.Locks.{IsAt, IsNext, IsSuperseded, MayStart};

use pl_base::{ExactCopy, Memory, ResourceKey};
use pl_locks::Contender;
use std::alloc::Global;
use std::collections::BTreeSet;

/// The run and the position of the least of the `eligible` stages, which ascend by both and of
/// which none gives way, in whose way nothing stands: none of the `holders` has a resource of it,
/// and no earlier one wants one. None where there is no such stage. Each is looked at once. Memory
/// comes where there is none, and nothing else.
pub fn next_of(
    alloc: Global,
    eligible: &[Contender],
    holders: &[Contender],
) -> Result<Option<(u64, u32)>, Memory>
    requires ordered { IsOrdered eligible.now }
    requires stand { All (λ stage. ¬ IsSuperseded eligible.now stage) eligible.now }
    ensures { IfOk result (λ found. MatchOption found
        (All (λ stage. ¬ MayStart eligible.now holders.now stage) eligible.now)
        (λ told. (stage : Contender) × IsNext eligible.now holders.now stage ×
        IsAt told.0 told.1 stage)) }
{
    let mut taken = taken_by(alloc, holders)?;
    for stage in eligible {
        if !wants_taken(&taken, stage) {
            return Ok(Some((stage.run, stage.position)));
        }
        take(alloc, &mut taken, stage)?;
    }
    Ok(None)
}

/// The resources that stages want.
fn taken_by(alloc: Global, stages: &[Contender]) -> Result<BTreeSet<ResourceKey>, Memory>
    ensures { IfOk result (λ taken. AreTaken taken stages.now) }
{
    let mut taken = BTreeSet::new(alloc);
    for stage in stages {
        take(alloc, &mut taken, stage)?;
    }
    Ok(taken)
}

/// Takes the resources that a stage wants besides. What is left after Memory isn't told.
fn take(alloc: Global, taken: &mut BTreeSet<ResourceKey>, stage: &Contender) -> Result<(), Memory>
    ensures { OnOk result ((key : ResourceKey) → contains key_cmp taken.new key ≡
        (contains key_cmp taken.old key || wants key stage.now)) }
{
    for key in stage.resources.as_slice() {
        taken.insert(key.copy(alloc)?)?;
    }
    Ok(())
}

/// Whether a stage wants a resource that is taken.
fn wants_taken(taken: &BTreeSet<ResourceKey>, stage: &Contender) -> bool
    ensures { result ≡ wants_taken taken.now stage.now }
{
    let resources = stage.resources.as_slice();
    resources.iter().any(|key| taken.contains(key))
}
