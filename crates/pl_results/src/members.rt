ghost use Rattle.std.specs.Prelude.{◌≡◌, ◌<◌, ◌^◌, ◌&&◌, IfOk, length, is_none, None, slice_get};
ghost use Rattle.std.specs.Prelude.{if◌then◌else◌};
ghost use Rattle.std.specs.List.{list_any, filter_map};
ghost use Rattle.std.specs.Option.{option_copied};
ghost use Rattle.pl_eval.specs.Known.{same_name};
ghost use Rattle.pl_plan.specs.Laws.{IsOrderly, waits_of_jobs};
ghost use Rattle.pl_results.specs.Members as spec;
ghost use Rattle.pl_results.specs.Nodes.{CanRun, IsNodeOf, jobs_of};

use crate::combining::worse;
use crate::places::{jobs_before, stages_before};
use crate::view::{JobView, RunView, result_at, view_result, views_of};
use pl_base::{ExactCopy, List, Memory, Outcome, Text, equals_ignoring_case};
use pl_plan::{Plan, PlanJob};
use std::alloc::Global;

/// A stage of a plan by its place, or a job by its stage's place and its own place in that stage.
#[derive(Clone, Copy)]
pub enum PlanNode {
    Stage(u32),
    Job(u32, u32),
}

/// A stage or a job, or a leg of one, that is waited for: its name, and how it ended.
#[derive(Drop)]
pub struct Member {
    pub name: Text,
    pub result: Option<Outcome>,
}

/// Whether a name is that one, the case of letters aside.
pub fn is_named(name: &Text, asked: &Text) -> bool
    ensures { result ≡ same_name asked.now name.now }
{
    equals_ignoring_case(name, asked)
}

/// The jobs of the stage at a place; none where the plan has no such stage.
pub fn jobs_of(plan: &Plan, at: usize) -> &[PlanJob]
    ensures { result.now ≡ jobs_of plan.now at }
{
    match plan.stages.get(at) {
        Some(stage) => stage.jobs.as_slice(),
        None => &[],
    }
}

/// The job at a place.
pub fn job_at(jobs: &[PlanJob], at: usize) -> Option<&PlanJob>
    ensures { option_copied result ≡ slice_get jobs.now at }
{
    jobs.get(at)
}

fn stage_members(
    alloc: Global,
    plan: &Plan,
    view: &RunView,
    at: u32,
) -> Result<List<Member>, Memory>
    requires runs { CanRun plan.now }
    requires within { at < length plan.now.stages }
    ensures { IfOk result (λ members. members ≡ spec.stage_members plan.now view.now at) }
{
    let places = stages_before(alloc, plan.stages.as_slice(), at)?;
    let mut members = List::new(alloc);
    for place in places.as_slice() {
        if let Some(stage) = plan.stages.get(*place as usize) {
            let name = stage.name.copy(alloc)?;
            let result = result_at(view.stages.as_slice(), *place as usize);
            members.push(Member { name, result })?;
        }
    }
    Ok(members)
}

fn job_members(
    alloc: Global,
    jobs: &[PlanJob],
    views: &[JobView],
    at: u32,
) -> Result<List<Member>, Memory>
    requires small { length jobs.now < 2 ^ 32 }
    requires orderly { IsOrderly (waits_of_jobs jobs.now) }
    requires within { at < length jobs.now }
    ensures { IfOk result (λ members. members ≡ spec.job_members jobs.now views.now at) }
{
    let places = jobs_before(alloc, jobs, at)?;
    let mut members = List::new(alloc);
    for place in places.as_slice() {
        if let Some(job) = job_at(jobs, *place as usize) {
            let name = job.name.copy(alloc)?;
            let result = view_result(views, *place as usize);
            members.push(Member { name, result })?;
        }
    }
    Ok(members)
}

/// All stages for which a stage waits, or all legs for which a job waits within its stage, directly
/// or through others, in the plan's order. They are found once, by one walk over the plan's waits.
pub fn members_of(
    alloc: Global,
    plan: &Plan,
    view: &RunView,
    node: PlanNode,
) -> Result<List<Member>, Memory>
    requires runs { CanRun plan.now }
    requires within { IsNodeOf plan.now node }
    ensures { IfOk result (λ members. members ≡ spec.members_of plan.now view.now node) }
{
    match node {
        PlanNode::Stage(stage) => stage_members(alloc, plan, view, stage),
        PlanNode::Job(stage, job) => {
            let views = views_of(view, stage as usize);
            job_members(alloc, jobs_of(plan, stage as usize), views, job)
        }
    }
}

/// Whether one of that name hasn't ended.
fn is_open(members: &[Member], name: &Text) -> bool
    ensures { result ≡ list_any (λ one. same_name name.now one.name && is_none one.result)
        members.now }
{
    members
        .iter()
        .any(|one| is_named(&one.name, name) && one.result.is_none())
}

/// What the results so far and one more are together.
fn also(all: Option<Outcome>, one: Option<Outcome>) -> Option<Outcome>
    ensures { result ≡ spec.also all one }
{
    match (all, one) {
        (Some(all), Some(one)) => Some(worse(all, one)),
        (Some(all), None) => Some(all),
        (None, one) => one,
    }
}

/// What those of a name that have ended are together.
fn combined_named(members: &[Member], name: &Text) -> Option<Outcome>
    ensures { result ≡ spec.combined_if_any
        (filter_map (λ one. if same_name name.now one.name then one.result else None)
        members.now) }
{
    let mut all = None;
    for one in members {
        if is_named(&one.name, name) {
            all = also(all, one.result);
        }
    }
    all
}

/// The result under a name, the case of ASCII's letters aside: the combined one of all that have
/// it, once all of them have ended; None before that, and where no one has it. It takes no memory.
#[tactic(auto, unfolding(crate::specs::Members::result_of))]
pub fn result_of(members: &[Member], name: &Text) -> Option<Outcome>
    ensures { result ≡ spec.result_of members.now name.now }
{
    if is_open(members, name) {
        return None;
    }
    combined_named(members, name)
}
