ghost use Rattle.std.specs.Prelude.{◌≡◌, ◌++◌, get_or, map, IfOk, OnOk};
ghost use Rattle.pl_json.specs.declared.json.Json.TheVariants as json;
ghost use Rattle.pl_objects.specs.Runs.{beside, job_status, progress_members, result_in, rule_in};
ghost use Rattle.pl_objects.specs.Runs.{run_object, stage_status, state_of, unstarted_job};
ghost use Rattle.pl_objects.specs.Runs.{unstarted_stage};
ghost use Rattle.pl_refusals.specs.Rows.{text_or_null};

use crate::status::{JobStatus, Progress, RunStatus, StageStatus};
use pl_base::{ExactCopy, List, Memory, Shared, Text};
use pl_facts::QueuedRun;
use pl_json::{Json, Member};
use pl_plan::{PlanJob, PlanStage, label_of};
use pl_refusals::{number, outcome_name, push, rule_object, state_name, text, word};
use pl_rules::State;
use std::alloc::Global;

/// How a run stands: whether it was canceled, its pipeline, the ref under which its root file was
/// read, who queued it, its number, and its stages in order, each with its jobs. A stage or a job
/// of the plan of which the status tells nothing wasn't started; what it tells behind the last one
/// isn't shown. Memory where memory is wanting.
pub fn run_object(alloc: Global, run: &QueuedRun, status: &RunStatus) -> Result<Json, Memory>
    ensures { IfOk result (λ made. made ≡ run_object run.now status.now) }
{
    let mut members = List::new(alloc);
    push(alloc, &mut members, "canceled", Json::Bool(status.canceled))?;
    members.push(text(alloc, "pipeline", &run.pipeline)?)?;
    members.push(text(alloc, "ref", &run.compiled.sources.root.git_ref)?)?;
    members.push(text(alloc, "requester", &run.requester)?)?;
    members.push(number(alloc, "run", run.run)?)?;
    let stages = stages_array(alloc, &run.compiled.plan.stages, &status.stages)?;
    push(alloc, &mut members, "stages", stages)?;
    Json::object(alloc, members)
}

/// What is told at a place, or else the default.
fn told_at<'a, T>(told: &'a List<T>, at: usize, default: &'a T) -> &'a T
    ensures { result.now ≡ get_or told.now at default.now }
{
    match told.get(at) {
        Some(one) => one,
        None => default,
    }
}

/// Stages, each with how it stands.
fn stages_array(
    alloc: Global,
    stages: &List<PlanStage>,
    statuses: &List<StageStatus>,
) -> Result<Json, Memory>
    ensures { IfOk result (λ made. made ≡ json.Array (map stage_status
        (beside unstarted_stage stages.now statuses.now))) }
{
    let unstarted = StageStatus {
        progress: Progress::Waiting,
        jobs: List::new(alloc),
    };
    let mut items = List::new(alloc);
    for (at, stage) in stages.as_slice().iter().enumerate() {
        let status = told_at(statuses, at, &unstarted);
        items.push(stage_status(alloc, stage, status)?)?;
    }
    Ok(Json::Array(items))
}

fn stage_status(alloc: Global, stage: &PlanStage, status: &StageStatus) -> Result<Json, Memory>
    ensures { IfOk result (λ made. made ≡ stage_status (stage.now, status.now)) }
{
    let mut members = List::new(alloc);
    let jobs = jobs_array(alloc, &stage.jobs, &status.jobs)?;
    push(alloc, &mut members, "jobs", jobs)?;
    members.push(text(alloc, "name", &stage.name)?)?;
    push_progress(alloc, &mut members, &status.progress)?;
    Json::object(alloc, members)
}

/// Jobs, each with how it stands.
fn jobs_array(
    alloc: Global,
    jobs: &List<PlanJob>,
    statuses: &List<JobStatus>,
) -> Result<Json, Memory>
    ensures { IfOk result (λ made. made ≡ json.Array (map job_status
        (beside unstarted_job jobs.now statuses.now))) }
{
    let unstarted = JobStatus {
        agent: None,
        progress: Progress::Waiting,
    };
    let mut items = List::new(alloc);
    for (at, job) in jobs.as_slice().iter().enumerate() {
        let status = told_at(statuses, at, &unstarted);
        items.push(job_status(alloc, job, status)?)?;
    }
    Ok(Json::Array(items))
}

/// The agent that took a job, else null.
fn agent_in(alloc: Global, agent: &Option<Shared<Text>>) -> Result<Json, Memory>
    ensures { IfOk result (λ made. made ≡ text_or_null agent.now) }
{
    match agent {
        Some(agent) => text_json(alloc, agent),
        None => Ok(Json::Null),
    }
}

fn text_json(alloc: Global, told: &Text) -> Result<Json, Memory>
    ensures { IfOk result (λ made. made ≡ json.Text told.now) }
{
    Ok(Json::Text(told.copy(alloc)?))
}

fn job_status(alloc: Global, job: &PlanJob, status: &JobStatus) -> Result<Json, Memory>
    ensures { IfOk result (λ made. made ≡ job_status (job.now, status.now)) }
{
    let mut members = List::new(alloc);
    let agent = agent_in(alloc, &status.agent)?;
    push(alloc, &mut members, "agent", agent)?;
    let label = Json::Text(label_of(alloc, job)?);
    push(alloc, &mut members, "job", label)?;
    push_progress(alloc, &mut members, &status.progress)?;
    Json::object(alloc, members)
}

/// Puts the result, the rule and the state behind the last member.
fn push_progress(
    alloc: Global,
    members: &mut List<Member<Json>>,
    progress: &Progress,
) -> Result<(), Memory>
    ensures { OnOk result (members.new ≡ members.old ++ progress_members progress.now) }
{
    let outcome = result_in(alloc, progress)?;
    push(alloc, members, "result", outcome)?;
    let rule = rule_in(alloc, progress)?;
    push(alloc, members, "rule", rule)?;
    members.push(word(alloc, "state", state_name(state_of(progress)))?)
}

/// How far something has come.
fn state_of(progress: &Progress) -> State
    ensures { result ≡ state_of progress.now }
{
    match progress {
        Progress::Waiting => State::Waiting,
        Progress::Running => State::Running,
        Progress::Ended { .. } => State::Ended,
    }
}

/// The result of what has ended, else null.
fn result_in(alloc: Global, progress: &Progress) -> Result<Json, Memory>
    ensures { IfOk result (λ made. made ≡ result_in progress.now) }
{
    match progress {
        Progress::Ended { outcome, .. } => Json::text(alloc, outcome_name(*outcome)),
        Progress::Waiting => Ok(Json::Null),
        Progress::Running => Ok(Json::Null),
    }
}

/// The rule that ended something, else null.
fn rule_in(alloc: Global, progress: &Progress) -> Result<Json, Memory>
    ensures { IfOk result (λ made. made ≡ rule_in progress.now) }
{
    match progress {
        Progress::Ended {
            rule: Some(rule),
            ..
        } => rule_object(alloc, rule),
        Progress::Ended { rule: None, .. } => Ok(Json::Null),
        Progress::Waiting => Ok(Json::Null),
        Progress::Running => Ok(Json::Null),
    }
}
