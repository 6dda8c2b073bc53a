//! What a decision is answered.

ghost use Rattle.std.specs.Prelude.{◌≡◌, IfOk};
ghost use Rattle.pl_decisions.specs.Decisions as spec;

use crate::approvers::unfit;
use pl_answers::Answer;
use pl_base::{ExactCopy, Memory, Shared, Text};
use pl_facts::{Event, QueuedRun};
use pl_journal::{Journal, verdict_told};
use pl_json::Members;
use pl_plan::PlanStage;
use pl_refusals::{verdict_name, word};
use pl_requests::{Reply, Rule};
use pl_rules::State;
use std::alloc::Global;

/// The stage about which somebody decides: its run's number, its place, and what its run is.
#[derive(Clone, Copy)]
struct StageAt<'j> {
    run: u64,
    stage: u32,
    queued: &'j QueuedRun,
    planned: &'j PlanStage,
}

/// 200 with the verdict.
fn verdict_reply(alloc: Global, approve: bool) -> Result<Reply, Memory>
    ensures { IfOk result (λ reply. reply ≡ spec.verdict_reply approve) }
{
    let verdict = word(alloc, "verdict", verdict_name(approve))?;
    Ok(Reply::json(200, Members::one(alloc, verdict)?))
}

/// How far a stage has come, where it isn't waiting any more.
fn closed(journal: &Journal, run: u64, stage: u32) -> Option<State>
    ensures { result ≡ spec.closed journal.now.facts run stage }
{
    if journal.stage_end(run, stage).is_some() {
        Some(State::Ended)
    } else if journal.stage_start(run, stage).is_some() {
        Some(State::Running)
    } else {
        None
    }
}

/// What somebody decided about a stage before, if they did.
fn kept(journal: &Journal, name: &Text, run: u64, stage: u32) -> Option<bool>
    ensures { result ≡ spec.kept journal.now.facts name.now run stage }
{
    match journal.decision(run, stage, name) {
        Some(fact) => verdict_told(&fact.event),
        None => None,
    }
}

/// The answer where somebody decided before.
fn decide_again(alloc: Global, kept: bool, approve: bool) -> Result<Answer, Memory>
    ensures { IfOk result (λ answer. answer ≡ spec.decide_again kept approve) }
{
    if kept != approve {
        return Answer::refusal(alloc, 409, &Rule::DecisionChanged { approve: kept });
    }
    Ok(Answer::without_fact(verdict_reply(alloc, approve)?))
}

/// The answer where somebody decides for the first time.
fn decide_first(
    alloc: Global,
    journal: &Journal,
    name: &Text,
    approve: bool,
    at: &StageAt<'_>,
) -> Result<Answer, Memory>
    ensures { IfOk result (λ answer. answer ≡ spec.decide_first journal.now.facts name.now approve
        at.now.run at.now.stage at.now.queued.now at.now.planned.now) }
{
    if let Some(state) = closed(journal, at.run, at.stage) {
        return Answer::refusal(alloc, 409, &Rule::DecisionClosed { state });
    }
    if let Some(rule) = unfit(journal, name, at.queued, at.planned) {
        return Answer::refusal(alloc, 403, &rule);
    }
    let reply = verdict_reply(alloc, approve)?;
    let approver = Shared::new(alloc, name.copy(alloc)?)?;
    let event = Event::DecisionMade {
        run: at.run,
        stage: at.stage,
        approver,
        approve,
    };
    Ok(Answer::with_fact(reply, event))
}

fn decide_at(
    alloc: Global,
    journal: &Journal,
    name: &Text,
    approve: bool,
    at: &StageAt<'_>,
) -> Result<Answer, Memory>
    ensures { IfOk result (λ answer. answer ≡ spec.decide_at journal.now.facts name.now approve
        at.now.run at.now.stage at.now.queued.now at.now.planned.now) }
{
    match kept(journal, name, at.run, at.stage) {
        Some(kept) => decide_again(alloc, kept, approve),
        None => decide_first(alloc, journal, name, approve, at),
    }
}

/// The answer about the stage at a place. A run has fewer than 2^32 stages: more are want of
/// memory.
fn decide_in(
    alloc: Global,
    journal: &Journal,
    name: &Text,
    approve: bool,
    run: u64,
    queued: &QueuedRun,
    place: usize,
) -> Result<Answer, Memory>
    ensures { IfOk result (λ answer. answer ≡
        spec.decide_in journal.now.facts name.now approve run queued.now place) }
{
    if place > u32::MAX as usize {
        return Err(Memory);
    }
    match queued.compiled.plan.stages.get(place) {
        Some(planned) => {
            let at = StageAt {
                run,
                stage: place as u32,
                queued,
                planned,
            };
            decide_at(alloc, journal, name, approve, &at)
        }
        None => Answer::refusal(alloc, 404, &Rule::StageUnknown),
    }
}

/// The place of the stage of a name, or None where there is none.
fn stage_named(stages: &[PlanStage], name: &Text) -> Option<usize>
    ensures { result ≡ spec.stage_named name.now stages.now }
{
    stages.iter().position(|one| one.name == *name)
}

/// The answer about a stage of a run.
fn decide_run(
    alloc: Global,
    journal: &Journal,
    name: &Text,
    run: u64,
    stage: &Text,
    approve: bool,
    queued: &QueuedRun,
) -> Result<Answer, Memory>
    ensures { IfOk result (λ answer. answer ≡
        spec.decide_run journal.now.facts name.now run stage.now approve queued.now) }
{
    match stage_named(queued.compiled.plan.stages.as_slice(), stage) {
        Some(place) => decide_in(alloc, journal, name, approve, run, queued, place),
        None => Answer::refusal(alloc, 404, &Rule::StageUnknown),
    }
}

/// What `POST /runs/{n}/stages/{s}/decision` is answered: 200 with the verdict, and whoever calls
/// approved the stage, or rejected it. The same decision once more is 200, and nothing happens.
///
/// Refused in this order: 404 `run.unknown`, `stage.unknown`; 409 `decision.changed`, with what was
/// decided, where the caller decided otherwise before; 409 `decision.closed` where the stage was
/// started or has ended; 403 `approver.unlisted` where no approval check of what the stage uses
/// lists the caller; 403 `approver.requester` where the caller queued the run, and each check that
/// lists them lets no requester decide (Microsoft Learn, Azure Pipelines, "Define approvals and
/// checks").
/// A decision may come before the stage is ready. Memory where memory is wanting.
pub fn decide(
    alloc: Global,
    journal: &Journal,
    name: &Text,
    run: u64,
    stage: &Text,
    approve: bool,
) -> Result<Answer, Memory>
    ensures { IfOk result (λ answer. answer ≡
        spec.decide journal.now.facts name.now run stage.now approve) }
{
    match journal.run(run) {
        Some(queued) => decide_run(alloc, journal, name, run, stage, approve, queued),
        None => Answer::refusal(alloc, 404, &Rule::RunUnknown),
    }
}
