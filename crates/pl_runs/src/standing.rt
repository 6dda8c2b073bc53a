//! How a run stands.

ghost use Rattle.std.specs.Prelude.{◌≡◌, length, IfOk};
ghost use Rattle.std.specs.Option.{option_copied};
ghost use Rattle.pl_journal.specs.Runs as told;
ghost use Rattle.pl_journal.specs.Settings.{by};
ghost use Rattle.pl_runs.specs.Runs as spec;

use pl_answers::{Answer, json_reply};
use pl_base::{ExactCopy, List, Memory, Shared, Text};
use pl_facts::{Event, Fact, QueuedRun};
use pl_journal::{Journal, outcome_told};
use pl_objects::{JobStatus, Progress, RunStatus, StageStatus, run_object};
use pl_plan::PlanStage;
use pl_requests::Rule;
use std::alloc::Global;

/// The rule by which something ended, if one ended it.
fn rule_of(alloc: Global, event: &Event) -> Result<Option<Shared<Rule>>, Memory>
    ensures { IfOk result (λ rule. rule ≡ told.rule_told event.now) }
{
    match event {
        Event::StageEnded { rule, .. } => rule.copy(alloc),
        Event::JobEnded { rule, .. } => rule.copy(alloc),
        _ => Ok(None),
    }
}

/// The agent that took a job, by the fact that it did.
fn taker_of(alloc: Global, event: &Event) -> Result<Option<Shared<Text>>, Memory>
    ensures { IfOk result (λ agent. agent ≡ told.taker_told event.now) }
{
    match event {
        Event::JobTaken { agent, .. } => Ok(Some(agent.copy(alloc)?)),
        _ => Ok(None),
    }
}

/// The agent that took a job, if one did.
fn taker(alloc: Global, taking: Option<&Fact>) -> Result<Option<Shared<Text>>, Memory>
    ensures { IfOk result (λ agent. agent ≡ by told.taker_told (option_copied taking.entry)) }
{
    match taking {
        Some(fact) => taker_of(alloc, &fact.event),
        None => Ok(None),
    }
}

/// How far something has come that hasn't ended.
fn unended(begun: bool) -> Progress
    ensures { result ≡ spec.unended begun }
{
    if begun {
        Progress::Running
    } else {
        Progress::Waiting
    }
}

/// How far something has come, by whether it has begun, and by the fact that ended it.
fn progress(alloc: Global, begun: bool, ending: Option<&Fact>) -> Result<Progress, Memory>
    ensures { IfOk result (λ told. told ≡ spec.progress begun (option_copied ending.entry)) }
{
    let Some(fact) = ending else {
        return Ok(unended(begun));
    };
    match outcome_told(&fact.event) {
        Some(outcome) => {
            let rule = rule_of(alloc, &fact.event)?;
            Ok(Progress::Ended { outcome, rule })
        }
        None => Ok(unended(begun)),
    }
}

fn job_status(
    alloc: Global,
    journal: &Journal,
    run: u64,
    stage: u32,
    job: u32,
) -> Result<JobStatus, Memory>
    ensures { IfOk result (λ status. status ≡
        spec.job_status journal.now.facts run stage job) }
{
    let taking = journal.taking(run, stage, job);
    let agent = taker(alloc, taking)?;
    let ending = journal.job_ending(run, stage, job);
    let progress = progress(alloc, taking.is_some(), ending)?;
    Ok(JobStatus { agent, progress })
}

/// How the first so many jobs of a stage stand.
fn jobs_status(
    alloc: Global,
    journal: &Journal,
    run: u64,
    stage: u32,
    jobs: u32,
) -> Result<List<JobStatus>, Memory>
    ensures { IfOk result (λ status. status ≡
        spec.jobs_status journal.now.facts run stage jobs) }
{
    let mut status = List::new(alloc);
    for job in 0..jobs {
        status.push(job_status(alloc, journal, run, stage, job)?)?;
    }
    Ok(status)
}

/// How many items there are: 2^32 and more are want of memory.
fn count_of<T>(items: &[T]) -> Result<u32, Memory>
    ensures { IfOk result (λ count. count ≡ length items.now) }
{
    match u32::try_from(items.len()) {
        Ok(count) => Ok(count),
        Err(_) => Err(Memory),
    }
}

/// How many jobs the stage at a place has.
fn job_count(stages: &[PlanStage], stage: u32) -> Result<u32, Memory>
    ensures { IfOk result (λ count. count ≡ spec.job_count stages.now stage) }
{
    match stages.get(stage as usize) {
        Some(planned) => count_of(planned.jobs.as_slice()),
        None => Ok(0),
    }
}

fn stage_status(
    alloc: Global,
    journal: &Journal,
    run: u64,
    stages: &[PlanStage],
    stage: u32,
) -> Result<StageStatus, Memory>
    ensures { IfOk result (λ status. status ≡
        spec.stage_status journal.now.facts run stages.now stage) }
{
    let begun = journal.stage_start(run, stage).is_some();
    let progress = progress(alloc, begun, journal.stage_end(run, stage))?;
    let jobs = jobs_status(alloc, journal, run, stage, job_count(stages, stage)?)?;
    Ok(StageStatus { progress, jobs })
}

fn stages_status(
    alloc: Global,
    journal: &Journal,
    run: u64,
    stages: &[PlanStage],
) -> Result<List<StageStatus>, Memory>
    ensures { IfOk result (λ status. status ≡
        spec.stages_status journal.now.facts run stages.now) }
{
    let mut status = List::new(alloc);
    for stage in 0..count_of(stages)? {
        status.push(stage_status(alloc, journal, run, stages, stage)?)?;
    }
    Ok(status)
}

fn run_status(
    alloc: Global,
    journal: &Journal,
    run: u64,
    queued: &QueuedRun,
) -> Result<RunStatus, Memory>
    ensures { IfOk result (λ status. status ≡
        spec.run_status journal.now.facts run queued.now.compiled.plan.stages) }
{
    let canceled = journal.canceling(run).is_some();
    let stages = stages_status(alloc, journal, run, queued.compiled.plan.stages.as_slice())?;
    Ok(RunStatus { canceled, stages })
}

/// What `GET /runs/{n}` is answered: 200 with how the run, its stages and its jobs stand. 404
/// `run.unknown` where no such run was queued. Nothing happens by it. Memory where memory is
/// wanting.
pub fn read_run(alloc: Global, journal: &Journal, run: u64) -> Result<Answer, Memory>
    ensures { IfOk result (λ answer. answer ≡ spec.read_run journal.now.facts run) }
{
    match journal.run(run) {
        Some(queued) => {
            let status = run_status(alloc, journal, run, queued)?;
            let told = run_object(alloc, queued, &status)?;
            Ok(Answer::without_fact(json_reply(200, told)))
        }
        None => Answer::refusal(alloc, 404, &Rule::RunUnknown),
    }
}
