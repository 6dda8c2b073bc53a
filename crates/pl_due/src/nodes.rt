//! How far stages and jobs are, and what their conditions say.

ghost use Rattle.std.specs.Prelude.{◌≡◌, ◌<◌, IfOk, length};
ghost use Rattle.pl_due.specs.Asked.{IsAsked, facts_of};
ghost use Rattle.pl_due.specs.Nodes as spec;
ghost use Rattle.pl_journal.specs.Runs as runs;
ghost use Rattle.pl_journal.specs.Settings.{by};
ghost use Rattle.pl_results.specs.declared.members.PlanNode.TheVariants as node;
ghost use Rattle.pl_views.specs.RunViews.{run_view};

use crate::stage_at::StageAt;
use pl_base::{List, Memory, Moment, Outcome};
use pl_cond::{job_condition, stage_condition};
use pl_journal::{Journal, outcome_told};
use pl_plan::PlanStage;
use pl_results::RunView;
use pl_views::{is_ready, job_is_ready, run_view};
use std::alloc::Global;

/// Whether a stage is started and hasn't ended.
pub fn is_running(journal: &Journal, run: u64, stage: u32) -> bool
    ensures { result ≡ spec.is_running run stage journal.now.facts }
{
    journal.stage_start(run, stage).is_some() && journal.stage_end(run, stage).is_none()
}

/// Whether a stage is neither started nor ended, and waits for no other stage.
pub fn waits(journal: &Journal, run: u64, stage: u32, planned: &PlanStage) -> bool
    ensures { result ≡ spec.is_waiting planned.now run stage journal.now.facts }
{
    journal.stage_start(run, stage).is_none()
        && journal.stage_end(run, stage).is_none()
        && is_ready(journal, run, planned)
}

/// The same of a stage that is asked about.
pub(crate) fn is_waiting(at: &StageAt<'_>) -> bool
    ensures { result ≡ spec.is_waiting at.now.planned.now at.now.run at.now.stage
        (facts_of at.now) }
{
    waits(at.journal, at.run, at.stage, at.planned)
}

/// Whether a run is canceled.
pub(crate) fn is_canceled(journal: &Journal, run: u64) -> bool
    ensures { result ≡ spec.is_canceled run journal.now.facts }
{
    journal.canceling(run).is_some()
}

/// What the stage's condition says.
pub(crate) fn stage_says(alloc: Global, at: &StageAt<'_>) -> Result<bool, Memory>
    requires { IsAsked at.now }
    ensures { IfOk result (λ says. says ≡ spec.condition at.now.queued.now at.now.run
        (node.Stage at.now.stage) (facts_of at.now)) }
{
    let plan = &at.queued.compiled.plan;
    let view = run_view(alloc, at.journal, at.run, plan)?;
    stage_condition(alloc, plan, at.stage, &view)
}

/// What the condition of one of its jobs says, as its run stands.
pub(crate) fn job_says(
    alloc: Global,
    at: &StageAt<'_>,
    view: &RunView,
    job: u32,
) -> Result<bool, Memory>
    requires asked { IsAsked at.now }
    requires within { job < length at.now.planned.now.jobs }
    requires view { view.now ≡ run_view at.now.queued.now.compiled.plan at.now.run
        (facts_of at.now) }
    ensures { IfOk result (λ says. says ≡ spec.condition at.now.queued.now at.now.run
        (node.Job at.now.stage job) (facts_of at.now)) }
{
    job_condition(alloc, &at.queued.compiled.plan, at.stage, job, view)
}

/// Whether a job that was taken then has had its minutes.
fn has_had(minutes: u32, taken: Moment, moment: Moment) -> bool
    ensures { result ≡ spec.has_had minutes taken moment }
{
    minutes > 0 && moment >= taken && moment - taken >= 60 * minutes as u64
}

/// Whether a job is taken, hasn't ended, and is out of time.
pub(crate) fn is_out_of_time(at: &StageAt<'_>, job: u32) -> bool
    ensures { result ≡ spec.is_out_of_time at.now.moment at.now.planned.now at.now.run at.now.stage
        job (facts_of at.now) }
{
    let Some(planned) = at.planned.jobs.get(job as usize) else {
        return false;
    };
    match at.journal.holding(at.run, at.stage, job) {
        Some(fact) => has_had(planned.timeout, fact.moment, at.moment),
        None => false,
    }
}

/// Whether a job is neither taken nor ended, and waits for nothing more.
pub fn awaits_agent(at: &StageAt<'_>, job: u32) -> bool
    ensures { result ≡ spec.awaits_agent at.now.planned.now at.now.run at.now.stage job
        (facts_of at.now) }
{
    match at.planned.jobs.get(job as usize) {
        Some(planned) => {
            at.journal.taking(at.run, at.stage, job).is_none()
                && at.journal.job_ending(at.run, at.stage, job).is_none()
                && job_is_ready(at.journal, at.run, at.stage, planned)
        }
        None => false,
    }
}

/// Whether all jobs of the stage have ended.
pub(crate) fn has_done_all(at: &StageAt<'_>) -> bool
    requires { IsAsked at.now }
    ensures { result ≡ spec.has_done_all at.now.planned.now at.now.run at.now.stage
        (facts_of at.now) }
{
    for job in 0..at.planned.jobs.len() {
        if at
            .journal
            .job_ending(at.run, at.stage, job as u32)
            .is_none()
        {
            return false;
        }
    }
    true
}

/// How the jobs of the stage ended that have ended.
pub(crate) fn outcomes(alloc: Global, at: &StageAt<'_>) -> Result<List<Outcome>, Memory>
    requires { IsAsked at.now }
    ensures { IfOk result (λ all. all ≡ spec.outcomes at.now.planned.now at.now.run at.now.stage
        (facts_of at.now)) }
{
    let mut all = List::new(alloc);
    for job in 0..at.planned.jobs.len() {
        if let Some(outcome) = outcome_at(at, job as u32) {
            all.push(outcome)?;
        }
    }
    Ok(all)
}

/// How a job ended, or None where it hasn't.
fn outcome_at(at: &StageAt<'_>, job: u32) -> Option<Outcome>
    ensures { result ≡ by runs.outcome_told
        (runs.job_ending at.now.run at.now.stage job (facts_of at.now)) }
{
    match at.journal.job_ending(at.run, at.stage, job) {
        Some(fact) => outcome_told(&fact.event),
        None => None,
    }
}
