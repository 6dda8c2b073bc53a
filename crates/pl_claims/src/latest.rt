//! Which stages give way, by the latest run at each claim.

ghost use Rattle.std.specs.Prelude.{◌≡◌, ◌↔◌, Any, IfOk, IsTrue, OnOk, Some, cond};
ghost use Rattle.std.specs.BTreeMap.{get};
ghost use Rattle.pl_claims.specs.Claims as spec;
ghost use Rattle.pl_claims.specs.Claims.{AreLast, GivesWayBy, claim_cmp, has_claim};
ghost use Rattle.pl_claims.specs.declared.claim.Claim.{Claim};
ghost use Rattle.pl_locks.specs.Kept.{IsOrdered};
ghost use Rattle.pl_locks.specs.Locks.{IsSuperseded};

use crate::claim::{Claim, claim_of};
use pl_base::{Behaviour, Memory};
use pl_locks::Contender;
use std::alloc::Global;
use std::collections::BTreeMap;

/// Whether one of the `eligible` stages, which ascend by run and position, gives way to another of
/// them. Each is looked at twice. Memory comes where there is none, and nothing else.
pub fn any_superseded(alloc: Global, eligible: &[Contender]) -> Result<bool, Memory>
    requires { IsOrdered eligible.now }
    ensures { IfOk result (λ any. IsTrue any ↔ Any (IsSuperseded eligible.now) eligible.now) }
{
    let latest = latest_runs(alloc, eligible)?;
    for stage in eligible {
        if is_superseded(alloc, &latest, stage)? {
            return Ok(true);
        }
    }
    Ok(false)
}

/// The run of the last stage that has it, for each claim.
fn latest_runs(alloc: Global, stages: &[Contender]) -> Result<BTreeMap<Claim, u64>, Memory>
    ensures { IfOk result (λ latest. AreLast latest stages.now) }
{
    let mut latest = BTreeMap::new(alloc);
    for stage in stages {
        put(alloc, &mut latest, stage)?;
    }
    Ok(latest)
}

/// Writes a stage's run down at each of its claims. What is left after Memory isn't told.
fn put(alloc: Global, latest: &mut BTreeMap<Claim, u64>, stage: &Contender) -> Result<(), Memory>
    ensures { OnOk result ((claim : Claim) → get claim_cmp latest.new claim ≡
        cond (has_claim claim stage.now) (Some stage.now.run) (get claim_cmp latest.old claim)) }
{
    for key in stage.resources.as_slice() {
        latest.insert(claim_of(alloc, stage, key)?, stage.run)?;
    }
    Ok(())
}

/// Whether a stage gives way to one of those whose runs are written down.
fn is_superseded(
    alloc: Global,
    latest: &BTreeMap<Claim, u64>,
    stage: &Contender,
) -> Result<bool, Memory>
    ensures { IfOk result (λ is. IsTrue is ↔ GivesWayBy latest.now stage.now) }
{
    if stage.behaviour == Behaviour::RunLatest {
        has_later(alloc, latest, stage)
    } else {
        Ok(false)
    }
}

/// Whether a later run is written down at one of a stage's claims.
fn has_later(
    alloc: Global,
    latest: &BTreeMap<Claim, u64>,
    stage: &Contender,
) -> Result<bool, Memory>
    ensures { IfOk result (λ has. has ≡ spec.has_later latest.now stage.now) }
{
    for key in stage.resources.as_slice() {
        let claim = claim_of(alloc, stage, key)?;
        if is_later(latest, &claim, stage.run) {
            return Ok(true);
        }
    }
    Ok(false)
}

/// Whether a later run than that is written down at a claim.
fn is_later(latest: &BTreeMap<Claim, u64>, claim: &Claim, run: u64) -> bool
    ensures { result ≡ spec.is_later latest.now claim.now run }
{
    match latest.get(claim) {
        Some(later) => run < *later,
        None => false,
    }
}
