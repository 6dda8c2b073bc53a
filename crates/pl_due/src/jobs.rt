//! What is due for jobs.

ghost use Rattle.std.specs.Prelude.{◌≡◌, ◌<◌, IfOk, Some, length};
ghost use Rattle.pl_due.specs.Asked.{IsAsked, facts_of};
ghost use Rattle.pl_due.specs.Kinds as spec;
ghost use Rattle.pl_due.specs.Scans.{IsFirstTrue};
ghost use Rattle.pl_due.specs.Tests.{awaits, is_over, is_passed_over};
ghost use Rattle.pl_views.specs.RunViews as views;

use crate::ends::{false_job_end, timeout_end};
use crate::nodes::{awaits_agent, is_canceled, is_out_of_time, is_running, job_says};
use crate::scanning::Kind;
use crate::stage_at::StageAt;
use pl_base::Memory;
use pl_facts::Event;
use pl_results::RunView;
use pl_views::run_view;
use std::alloc::Global;

/// Jobs that are taken and out of time.
#[derive(Clone, Copy)]
pub struct OutOfTime;

impl Kind for OutOfTime {
    ghost of = { λ itself facts moment. spec.TimesOut facts moment };

    fn in_stage(&self, alloc: Global, at: &StageAt<'_>) -> Result<Option<Event>, Memory> {
        if !is_running(at.journal, at.run, at.stage) {
            return Ok(None);
        }
        match first_out_of_time(at) {
            Some(job) => Ok(Some(timeout_end(alloc, at.run, at.stage, job)?)),
            None => Ok(None),
        }
    }
}

/// The first job of a stage that is out of time.
fn first_out_of_time(at: &StageAt<'_>) -> Option<u32>
    requires { IsAsked at.now }
    ensures { IsFirstTrue (is_over at.now) result }
{
    for job in 0..at.planned.jobs.len() as u32 {
        if is_out_of_time(at, job) {
            return Some(job);
        }
    }
    None
}

/// Jobs of running stages that wait for an agent alone, and whose condition is false.
#[derive(Clone, Copy)]
pub struct FalseJobs;

impl Kind for FalseJobs {
    ghost of = { λ itself facts moment. spec.JobIsPassedOver facts };

    fn in_stage(&self, alloc: Global, at: &StageAt<'_>) -> Result<Option<Event>, Memory> {
        if !is_running(at.journal, at.run, at.stage) {
            return Ok(None);
        }
        match first_passed_over(alloc, at)? {
            Some(job) => {
                let canceled = is_canceled(at.journal, at.run);
                Ok(Some(false_job_end(alloc, canceled, at.run, at.stage, job)?))
            }
            None => Ok(None),
        }
    }
}

/// The first job of a stage that waits for an agent alone, and whose condition is false. How the
/// run stands is looked up only where a job waits so.
fn first_passed_over(alloc: Global, at: &StageAt<'_>) -> Result<Option<u32>, Memory>
    requires { IsAsked at.now }
    ensures { IfOk result (IsFirstTrue (is_passed_over at.now)) }
{
    match first_awaiting(at) {
        Some(first) => {
            let view = run_view(alloc, at.journal, at.run, &at.queued.compiled.plan)?;
            first_false(alloc, at, &view, first)
        }
        None => Ok(None),
    }
}

/// The first job of a stage that waits for an agent alone.
fn first_awaiting(at: &StageAt<'_>) -> Option<u32>
    requires { IsAsked at.now }
    ensures { IsFirstTrue (awaits at.now) result }
{
    for job in 0..at.planned.jobs.len() as u32 {
        if awaits_agent(at, job) {
            return Some(job);
        }
    }
    None
}

/// The first job from a place on that waits for an agent alone, and whose condition is false, where
/// none before that place waits so.
fn first_false(
    alloc: Global,
    at: &StageAt<'_>,
    view: &RunView,
    from: u32,
) -> Result<Option<u32>, Memory>
    requires asked { IsAsked at.now }
    requires view { view.now ≡ views.run_view at.now.queued.now.compiled.plan at.now.run
        (facts_of at.now) }
    requires before { IsFirstTrue (awaits at.now) (Some from) }
    ensures { IfOk result (IsFirstTrue (is_passed_over at.now)) }
{
    for job in from..at.planned.jobs.len() as u32 {
        if is_false(alloc, at, view, job)? {
            return Ok(Some(job));
        }
    }
    Ok(None)
}

/// Whether a job waits for an agent alone, and its condition is false.
fn is_false(alloc: Global, at: &StageAt<'_>, view: &RunView, job: u32) -> Result<bool, Memory>
    requires asked { IsAsked at.now }
    requires within { job < length at.now.planned.now.jobs }
    requires view { view.now ≡ views.run_view at.now.queued.now.compiled.plan at.now.run
        (facts_of at.now) }
    ensures { IfOk result (λ is. is ≡ is_passed_over at.now job) }
{
    if !awaits_agent(at, job) {
        return Ok(false);
    }
    Ok(!job_says(alloc, at, view, job)?)
}
