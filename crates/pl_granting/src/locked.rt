//! What keeps a stage from being started that waits for no stage and is permitted, as rules.

ghost use Rattle.std.specs.Prelude.{◌≡◌, ◌≤◌, ◌↔◌, ◌∷◌, [], Contains, IfOk, IsTrue};
ghost use Rattle.std.specs.Option.{option_copied};
ghost use Rattle.pl_due.specs.Contention.{IsContention, locks};
ghost use Rattle.pl_due.specs.Fit.{AreFit, last_moment};
ghost use Rattle.pl_granting.specs.Asked.{of};
ghost use Rattle.pl_granting.specs.Broken.{FirstBroken};
ghost use Rattle.pl_granting.specs.Locked as spec;
ghost use Rattle.pl_granting.specs.Named.{IsJobOf};
ghost use Rattle.pl_locks.specs.Kept.{IsOrdered};

use crate::job_at::JobAt;
use pl_base::{ExactCopy, Memory, Moment, ResourceKey};
use pl_due::{
    Contention, IndexedJournal, contender_of, contention_at, exclusive_uses, judgement_of,
};
use pl_facts::Rule;
use pl_journal::Journal;
use pl_judgement::Judgement;
use pl_locks::{Contender, comes_first};
use std::alloc::Global;

/// The rule by which the first check waits that waits.
fn wait_of(judgement: Judgement) -> Option<Rule>
    ensures { result ≡ judgement.wait }
{
    judgement.wait
}

/// `approval.open` or `hours.closed`: the first check that waits, approvals before hours.
pub(crate) fn awaits(
    alloc: Global,
    journal: &Journal,
    moment: Moment,
    at: &JobAt<'_>,
) -> Result<Option<Rule>, Memory>
    requires moment { moment ≤ last_moment }
    requires fit { AreFit journal.now.facts }
    requires job { IsJobOf journal.now.facts (of at.now) }
    ensures { IfOk result (spec.Awaits journal.now.facts moment (of at.now)) }
{
    let said = judgement_of(
        alloc, journal, moment, at.run, at.stage, at.queued, at.staged,
    )?;
    Ok(wait_of(said))
}

/// Whether a stage has a resource among its exclusive ones.
fn has(stage: &Contender, key: &ResourceKey) -> bool
    ensures { IsTrue result ↔ Contains stage.now.resources key.now }
{
    stage.resources.as_slice().contains(key)
}

/// The stage that holds a resource, or None where none does. They ascend.
fn holder_of<'c>(holders: &'c [Contender], key: &ResourceKey) -> Option<&'c Contender>
    requires { IsOrdered holders.now }
    ensures { spec.HolderOf holders.now key.now (option_copied result) }
{
    for stage in holders {
        if has(stage, key) {
            return Some(stage);
        }
    }
    None
}

/// The stage that holds the first of some resources that one holds.
fn held_by<'c>(holders: &'c [Contender], keys: &[ResourceKey]) -> Option<&'c Contender>
    requires { IsOrdered holders.now }
    ensures { spec.FirstHeld holders.now keys.now (option_copied result) }
{
    for key in keys {
        if let Some(stage) = holder_of(holders, key) {
            return Some(stage);
        }
    }
    None
}

/// The least eligible stage that comes before one, or None where none does. They ascend.
fn least_first<'c>(eligible: &'c [Contender], stage: &Contender) -> Option<&'c Contender>
    requires { IsOrdered eligible.now }
    ensures { spec.LeastFirst eligible.now stage.now (option_copied result) }
{
    for other in eligible {
        if comes_first(eligible, other, stage) {
            return Some(other);
        }
    }
    None
}

/// `lock.held`: by this stage.
fn held_rule(alloc: Global, stage: Option<&Contender>) -> Result<Option<Rule>, Memory>
    ensures { IfOk result (λ rule. rule ≡ spec.held_rule (option_copied stage.entry)) }
{
    match stage {
        Some(stage) => Ok(Some(Rule::LockHeld {
            run: stage.run,
            stage: stage.name.copy(alloc)?,
        })),
        None => Ok(None),
    }
}

/// `lock.behind`: behind this stage.
fn behind_rule(alloc: Global, stage: Option<&Contender>) -> Result<Option<Rule>, Memory>
    ensures { IfOk result (λ rule. rule ≡ spec.behind_rule (option_copied stage.entry)) }
{
    match stage {
        Some(stage) => Ok(Some(Rule::LockBehind {
            run: stage.run,
            stage: stage.name.copy(alloc)?,
        })),
        None => Ok(None),
    }
}

/// `lock.held` among these: the stage that holds the first exclusive use that one holds.
fn held(
    alloc: Global,
    journal: &Journal,
    moment: Moment,
    at: &JobAt<'_>,
    all: &Contention,
) -> Result<Option<Rule>, Memory>
    requires { IsContention journal.now.facts moment (locks all.now.eligible all.now.holders) }
    ensures { IfOk result (spec.IsHeldRule journal.now.facts moment (of at.now)) }
{
    let keys = exclusive_uses(alloc, journal, at.staged)?;
    held_rule(alloc, held_by(all.holders.as_slice(), keys.as_slice()))
}

/// `lock.behind` among these: the least eligible stage that comes first.
fn behind(
    alloc: Global,
    journal: &Journal,
    moment: Moment,
    at: &JobAt<'_>,
    all: &Contention,
) -> Result<Option<Rule>, Memory>
    requires { IsContention journal.now.facts moment (locks all.now.eligible all.now.holders) }
    ensures { IfOk result (spec.IsBehindRule journal.now.facts moment (of at.now)) }
{
    let stage = contender_of(alloc, journal, at.run, at.stage, at.queued, at.staged)?;
    behind_rule(alloc, least_first(all.eligible.as_slice(), &stage))
}

/// `lock.held`, else `lock.behind`: what other stages say on the exclusive resources of a job's
/// stage.
pub(crate) fn by_locks(
    alloc: Global,
    journal: &IndexedJournal,
    moment: Moment,
    at: &JobAt<'_>,
) -> Result<Option<Rule>, Memory>
    requires moment { moment ≤ last_moment }
    requires fit { AreFit journal.now.facts }
    ensures { IfOk result (FirstBroken (spec.IsHeldRule journal.now.facts moment (of at.now)
        ∷ spec.IsBehindRule journal.now.facts moment (of at.now) ∷ [])) }
{
    let all = contention_at(alloc, journal, moment)?;
    match held(alloc, journal.journal(), moment, at, &all)? {
        Some(rule) => Ok(Some(rule)),
        None => behind(alloc, journal.journal(), moment, at, &all),
    }
}
