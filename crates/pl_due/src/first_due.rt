ghost use Rattle.std.specs.Prelude.{◌≤◌, ◌∷◌, [], All, Any, IfOk, None, drop};
ghost use Rattle.pl_due.specs.Contention.{AreThose, IsEligible, locks};
ghost use Rattle.pl_due.specs.Due.{IsDue, Next, Superseded, findings};
ghost use Rattle.pl_due.specs.Fit.{AreFit, last_moment};
ghost use Rattle.pl_due.specs.Kinds.{IsPassedOver};
ghost use Rattle.pl_due.specs.Least.{FirstOf};
ghost use Rattle.pl_due.specs.Scans.{FirstStage, HasRunning, HasWaiting};
ghost use Rattle.pl_locks.specs.Kept.{IsOrdered};
ghost use Rattle.pl_locks.specs.Locks.{IsSuperseded};

use crate::contention::contenders;
use crate::eligible::Running;
use crate::ends::superseded_end;
use crate::jobs::{FalseJobs, OutOfTime};
use crate::open_stages::{Place, open_stages};
use crate::scanning::first_stage;
use crate::stages::{Done, FalseStages};
use crate::verdicts::{AllJudged, all_judged};
use pl_base::{Memory, Moment};
use pl_claims::{any_superseded, next_of};
use pl_facts::Event;
use pl_journal::Journal;
use pl_locks::{Contender, least_superseded};
use pl_open_runs::IndexedJournal;
use std::alloc::Global;

/// What is due at a moment: the fact that settling adds next to those of a journal, or None where
/// nothing is due.
///
/// It is of the first of these kinds that has a stage or a job, and of it the least by run, then by
/// stage, then by job:
/// 1. a job that an agent has taken and that is out of time ends Canceled by `job.timeout`; one
///    with a timeout of 0 never does;
/// 2. a job of a running stage that no agent has taken and that waits for no other job more, and
///    whose condition is false, ends Skipped by `condition.false`, in a canceled run Canceled by
///    `run.canceled`;
/// 3. a running stage whose jobs have all ended ends with their combined result;
/// 4. a stage that is neither started nor ended and waits for no other stage more, and whose
///    condition is false, ends as a job does;
/// 5. such a stage of which a check fails ends Failed by the first rule by which one does, and
///    Skipped where that is `approval.timeout`; first by the checks' kind (required template,
///    branch, approval, hours), then by use, then by place;
/// 6. a stage that may start but gives way to a later run ends Skipped by `lock.superseded`;
/// 7. the next stage starts: the least that its condition, its permissions, its checks and the
///    exclusive locks let start.
///
/// Only open runs are looked at. Each fact's moment is one that a clock tells, and each run's plan
/// can run, as `pl_cond::each_plan_can_run` says of what `plan_of` makes. Memory comes where there
/// is none, and nothing else.
pub fn due(alloc: Global, journal: &IndexedJournal, moment: Moment) -> Result<Option<Event>, Memory>
    requires moment { moment ≤ last_moment }
    requires fit { AreFit journal.now.facts }
    ensures { IfOk result (IsDue journal.now.facts moment) }
{
    let stages = open_stages(alloc, journal)?;
    let running = stages.running.as_slice();
    let waiting = stages.waiting.as_slice();
    first_of_all(alloc, journal.journal(), moment, running, waiting)
}

/// What is due of all kinds.
fn first_of_all(
    alloc: Global,
    journal: &Journal,
    moment: Moment,
    running: &[Place],
    waiting: &[Place],
) -> Result<Option<Event>, Memory>
    requires moment { moment ≤ last_moment }
    requires fit { AreFit journal.now.facts }
    requires running { HasRunning journal.now.facts running.now }
    requires waiting { HasWaiting journal.now.facts waiting.now }
    ensures { IfOk result (FirstOf (findings journal.now.facts moment)) }
{
    match first_stage(alloc, journal, moment, running, &OutOfTime)? {
        Some(event) => Ok(Some(event)),
        None => after_timeouts(alloc, journal, moment, running, waiting),
    }
}

/// What is due of the kinds behind the first.
fn after_timeouts(
    alloc: Global,
    journal: &Journal,
    moment: Moment,
    running: &[Place],
    waiting: &[Place],
) -> Result<Option<Event>, Memory>
    requires moment { moment ≤ last_moment }
    requires fit { AreFit journal.now.facts }
    requires running { HasRunning journal.now.facts running.now }
    requires waiting { HasWaiting journal.now.facts waiting.now }
    ensures { IfOk result (FirstOf (drop 1 (findings journal.now.facts moment))) }
{
    match first_stage(alloc, journal, moment, running, &FalseJobs)? {
        Some(event) => Ok(Some(event)),
        None => after_jobs(alloc, journal, moment, running, waiting),
    }
}

/// What is due of the kinds that are of stages.
fn after_jobs(
    alloc: Global,
    journal: &Journal,
    moment: Moment,
    running: &[Place],
    waiting: &[Place],
) -> Result<Option<Event>, Memory>
    requires moment { moment ≤ last_moment }
    requires fit { AreFit journal.now.facts }
    requires running { HasRunning journal.now.facts running.now }
    requires waiting { HasWaiting journal.now.facts waiting.now }
    ensures { IfOk result (FirstOf (drop 2 (findings journal.now.facts moment))) }
{
    match first_stage(alloc, journal, moment, running, &Done)? {
        Some(event) => Ok(Some(event)),
        None => after_ends(alloc, journal, moment, running, waiting),
    }
}

/// What is due of the kinds that are of stages which haven't started.
fn after_ends(
    alloc: Global,
    journal: &Journal,
    moment: Moment,
    running: &[Place],
    waiting: &[Place],
) -> Result<Option<Event>, Memory>
    requires moment { moment ≤ last_moment }
    requires fit { AreFit journal.now.facts }
    requires running { HasRunning journal.now.facts running.now }
    requires waiting { HasWaiting journal.now.facts waiting.now }
    ensures { IfOk result (FirstOf (drop 3 (findings journal.now.facts moment))) }
{
    match first_stage(alloc, journal, moment, waiting, &FalseStages)? {
        Some(event) => Ok(Some(event)),
        None => after_conditions(alloc, journal, moment, running, waiting),
    }
}

/// What is due of the kinds behind the conditions, none of which is false. Each stage's checks are
/// asked once, for those that fail and for those that let it start.
fn after_conditions(
    alloc: Global,
    journal: &Journal,
    moment: Moment,
    running: &[Place],
    waiting: &[Place],
) -> Result<Option<Event>, Memory>
    requires moment { moment ≤ last_moment }
    requires fit { AreFit journal.now.facts }
    requires running { HasRunning journal.now.facts running.now }
    requires waiting { HasWaiting journal.now.facts waiting.now }
    requires says { FirstStage journal.now.facts (IsPassedOver journal.now.facts) waiting.now None }
    ensures { IfOk result (FirstOf (drop 4 (findings journal.now.facts moment))) }
{
    let AllJudged { fails, eligible } = all_judged(alloc, journal, moment, waiting)?;
    match fails {
        Some(event) => Ok(Some(event)),
        None => by_locks(alloc, journal, moment, eligible.as_slice(), running),
    }
}

/// What is due by the exclusive locks.
fn by_locks(
    alloc: Global,
    journal: &Journal,
    moment: Moment,
    eligible: &[Contender],
    running: &[Place],
) -> Result<Option<Event>, Memory>
    requires moment { moment ≤ last_moment }
    requires fit { AreFit journal.now.facts }
    requires eligible { AreThose journal.now.facts (IsEligible journal.now.facts moment)
        eligible.now }
    requires running { HasRunning journal.now.facts running.now }
    ensures { IfOk result (FirstOf (drop 5 (findings journal.now.facts moment))) }
{
    let holders = contenders(alloc, journal, moment, running, &Running)?;
    among(alloc, eligible, holders.as_slice())
}

/// What is due among stages that may start and stages that hold their resources.
fn among(
    alloc: Global,
    eligible: &[Contender],
    holders: &[Contender],
) -> Result<Option<Event>, Memory>
    requires { IsOrdered eligible.now }
    ensures { IfOk result (λ found. FirstOf (Superseded (locks eligible.now holders.now)
        ∷ Next (locks eligible.now holders.now) ∷ []) found) }
{
    if any_superseded(alloc, eligible)? {
        first_superseded(alloc, eligible, holders)
    } else {
        next_start(alloc, eligible, holders)
    }
}

/// The end of the least stage that gives way, where one does.
fn first_superseded(
    alloc: Global,
    eligible: &[Contender],
    holders: &[Contender],
) -> Result<Option<Event>, Memory>
    requires ordered { IsOrdered eligible.now }
    requires some { Any (IsSuperseded eligible.now) eligible.now }
    ensures { IfOk result (λ found. FirstOf (Superseded (locks eligible.now holders.now)
        ∷ Next (locks eligible.now holders.now) ∷ []) found) }
{
    match least_superseded(eligible) {
        Some((run, stage, later)) => Ok(Some(superseded_end(alloc, run, stage, later)?)),
        None => unreachable!(),
    }
}

/// The start of the next stage, where none gives way.
fn next_start(
    alloc: Global,
    eligible: &[Contender],
    holders: &[Contender],
) -> Result<Option<Event>, Memory>
    requires ordered { IsOrdered eligible.now }
    requires stand { All (λ stage. ¬ IsSuperseded eligible.now stage) eligible.now }
    ensures { IfOk result (Next (locks eligible.now holders.now)) }
{
    match next_of(alloc, eligible, holders)? {
        Some((run, stage)) => Ok(Some(Event::StageStarted { run, stage })),
        None => Ok(None),
    }
}
