//! Until when time alone changes nothing in a run.

ghost use Rattle.std.specs.Prelude.{◌≡◌, ◌≤◌, ◌<◌, ℕ, IfSome, Some, flat_map, true};
ghost use Rattle.pl_due.specs.Asked.{IsAsked, facts_of};
ghost use Rattle.pl_due.specs.Fit.{AreFit, last_moment};
ghost use Rattle.pl_due.specs.Nodes.{has_had, is_running, is_waiting};
ghost use Rattle.pl_due.specs.Below.pl_journal.specs.Runs.{queueing, run_told};
ghost use Rattle.pl_due.specs.Below.pl_journal.specs.Settings.{by};
ghost use Rattle.pl_due.specs.Checked as checks;
ghost use Rattle.pl_looks.specs.Quiet as spec;
ghost use Rattle.pl_wakes.specs.Steady.{AreSteady};

use pl_base::{Moment, ResourceKey};
use pl_due::{Journal, StageAt, checks_on, is_running, ready_moment, waits};
use pl_facts::QueuedRun;
use pl_wakes::{sooner, steady_until};

/// The moment at which a job that was taken then has had its minutes, or None where it has had them.
fn time_over(minutes: u32, taken: Moment, moment: Moment) -> Option<Moment>
    requires { moment ≤ last_moment }
    ensures later { IfSome result (λ until. moment < until) }
    ensures quiet { spec.StaysUntil (λ later. has_had minutes taken later ≡ true →
        has_had minutes taken moment ≡ true) moment result }
{
    let over = taken.saturating_add(60 * minutes as u64);
    if moment < over { Some(over) } else { None }
}

/// Until when a job doesn't get out of time.
fn job_until(at: &StageAt<'_>, job: u32) -> Option<Moment>
    requires { at.now.moment ≤ last_moment }
    ensures later { IfSome result (λ until. at.now.moment < until) }
    ensures quiet { spec.StaysUntil (λ later. spec.JobIsQuiet (facts_of at.now) at.now.moment later
        at.now.planned.now at.now.run at.now.stage job) at.now.moment result }
{
    match at.planned.jobs.get(job as usize) {
        Some(planned) => match at.journal.holding(at.run, at.stage, job) {
            Some(fact) => time_over(planned.timeout, fact.moment, at.moment),
            None => None,
        },
        None => None,
    }
}

/// Until when no job of a stage gets out of time.
fn jobs_until(at: &StageAt<'_>) -> Option<Moment>
    requires { IsAsked at.now }
    ensures later { IfSome result (λ until. at.now.moment < until) }
    ensures quiet { spec.StaysUntil (λ later. (job : ℕ) → spec.JobIsQuiet (facts_of at.now)
        at.now.moment later at.now.planned.now at.now.run at.now.stage job) at.now.moment result }
{
    let mut until = None;
    for job in 0..at.planned.jobs.len() as u32 {
        until = sooner(until, job_until(at, job));
    }
    until
}

/// Until when each check of some resources says the same of a stage that was ready then.
fn uses_until(
    journal: &Journal,
    uses: &[ResourceKey],
    ready: Moment,
    moment: Moment,
) -> Option<Moment>
    requires { moment ≤ last_moment }
    ensures later { IfSome result (λ until. moment < until) }
    ensures steady { AreSteady (flat_map (checks.checks_on journal.now.facts) uses.now) ready moment
        result }
{
    let mut until = None;
    for key in uses {
        until = sooner(until, steady_until(checks_on(journal, key), ready, moment));
    }
    until
}

/// Until when each check of what a stage uses says the same.
fn checks_until(at: &StageAt<'_>) -> Option<Moment>
    requires { IsAsked at.now }
    ensures later { IfSome result (λ until. at.now.moment < until) }
    ensures quiet { spec.StaysUntil (λ later. spec.ChecksAreQuiet (facts_of at.now) at.now.moment
        later at.now.queued.now at.now.planned.now at.now.run at.now.stage) at.now.moment result }
{
    let ready = ready_moment(at.journal, at.run, at.planned);
    let uses = at.planned.uses.as_slice();
    uses_until(at.journal, uses, ready, at.moment)
}

/// Until when no job of a stage gets out of time, where it runs.
fn running_until(at: &StageAt<'_>) -> Option<Moment>
    requires { IsAsked at.now }
    ensures later { IfSome result (λ until. at.now.moment < until) }
    ensures quiet { spec.StaysUntil (λ later. is_running at.now.run at.now.stage (facts_of at.now)
        ≡ true → (job : ℕ) → spec.JobIsQuiet (facts_of at.now) at.now.moment later
        at.now.planned.now at.now.run at.now.stage job) at.now.moment result }
{
    if is_running(at.journal, at.run, at.stage) {
        jobs_until(at)
    } else {
        None
    }
}

/// Until when its checks say the same, where it waits for no other stage.
fn waiting_until(at: &StageAt<'_>) -> Option<Moment>
    requires { IsAsked at.now }
    ensures later { IfSome result (λ until. at.now.moment < until) }
    ensures quiet { spec.StaysUntil (λ later. is_waiting at.now.planned.now at.now.run at.now.stage
        (facts_of at.now) ≡ true → spec.ChecksAreQuiet (facts_of at.now) at.now.moment later
        at.now.queued.now at.now.planned.now at.now.run at.now.stage) at.now.moment result }
{
    if waits(at.journal, at.run, at.stage, at.planned) {
        checks_until(at)
    } else {
        None
    }
}

/// Until when time alone changes nothing in a stage.
fn stage_until(at: &StageAt<'_>) -> Option<Moment>
    requires { IsAsked at.now }
    ensures later { IfSome result (λ until. at.now.moment < until) }
    ensures quiet { spec.StaysUntil (λ later. spec.StageIsQuiet (facts_of at.now) at.now.moment
        later at.now.queued.now at.now.planned.now at.now.run at.now.stage) at.now.moment result }
{
    sooner(running_until(at), waiting_until(at))
}

/// Until when time alone changes nothing in the stage at a place of a run that was queued so.
fn place_until(
    journal: &Journal,
    run: u64,
    moment: Moment,
    queued: &QueuedRun,
    stage: u32,
) -> Option<Moment>
    requires moment { moment ≤ last_moment }
    requires fit { AreFit journal.now.facts }
    requires told { by run_told (queueing run journal.now.facts) ≡ Some queued.now }
    ensures later { IfSome result (λ until. moment < until) }
    ensures quiet { spec.StaysUntil (λ later. spec.PlaceIsQuiet journal.now.facts moment run
        queued.now stage later) moment result }
{
    match queued.compiled.plan.stages.get(stage as usize) {
        Some(planned) => stage_until(&StageAt {
            journal,
            moment,
            run,
            stage,
            queued,
            planned,
        }),
        None => None,
    }
}

/// Until when time alone changes nothing in a run that was queued so.
fn queued_until(journal: &Journal, run: u64, moment: Moment, queued: &QueuedRun) -> Option<Moment>
    requires moment { moment ≤ last_moment }
    requires fit { AreFit journal.now.facts }
    requires told { by run_told (queueing run journal.now.facts) ≡ Some queued.now }
    ensures later { IfSome result (λ until. moment < until) }
    ensures quiet { spec.StaysUntil (λ later. (stage : ℕ) → spec.PlaceIsQuiet journal.now.facts
        moment run queued.now stage later) moment result }
{
    let mut until = None;
    for stage in 0..queued.compiled.plan.stages.len() as u32 {
        until = sooner(until, place_until(journal, run, moment, queued, stage));
    }
    until
}

/// Until when time alone changes nothing in a run. It takes no memory.
pub(crate) fn run_until(journal: &Journal, run: u64, moment: Moment) -> Option<Moment>
    requires moment { moment ≤ last_moment }
    requires fit { AreFit journal.now.facts }
    ensures later { IfSome result (λ until. moment < until) }
    ensures quiet { spec.StaysUntil (spec.IsQuiet journal.now.facts moment run) moment result }
{
    match journal.run(run) {
        Some(queued) => queued_until(journal, run, moment, queued),
        None => None,
    }
}
