ghost use Rattle.std.specs.Prelude.{◌≡◌, ◌≤◌, IfOk, find, filter, take, length};
ghost use Rattle.std.specs.List.{list_any};
ghost use Rattle.std.specs.Option.{option_copied};
ghost use Rattle.pl_eval.specs.Known.{same_name};
ghost use Rattle.pl_results.specs.Parts as spec;

use crate::legs::{KeyForm, Leg, all_legs};
use crate::members::{Member, is_named, result_of};
use crate::places::direct;
use crate::view::{RunView, result_at, views_of};
use pl_base::{ExactCopy, List, Memory, Outcome, Text};
use pl_plan::{Plan, PlanStage};
use std::alloc::Global;

/// A stage or a job as others see it that wait for it: its name, how it ended, and the legs whose
/// outputs are its own.
#[derive(Drop)]
pub struct Part {
    pub name: Text,
    pub result: Option<Outcome>,
    pub legs: List<Leg>,
}

/// A stage with the legs of its jobs.
#[derive(Drop)]
pub struct Group {
    pub name: Text,
    pub legs: List<Leg>,
}

fn stage_part_of(
    alloc: Global,
    view: &RunView,
    at: usize,
    stage: &PlanStage,
) -> Result<Part, Memory>
    ensures { IfOk result (λ part. part ≡ spec.stage_part_of view.now at stage.now) }
{
    let views = views_of(view, at);
    let name = stage.name.copy(alloc)?;
    let legs = all_legs(alloc, KeyForm::OfStage, stage.jobs.as_slice(), views)?;
    let result = result_at(view.stages.as_slice(), at);
    Ok(Part { name, result, legs })
}

/// The stages for which one waits directly, in the order of the plan.
pub fn stage_parts(
    alloc: Global,
    plan: &Plan,
    view: &RunView,
    depends: &[u32],
) -> Result<List<Part>, Memory>
    ensures { IfOk result (λ parts. parts ≡ spec.stage_parts plan.now view.now depends.now) }
{
    let places = direct(alloc, depends, plan.stages.len())?;
    let mut parts = List::new(alloc);
    for at in places.as_slice() {
        if let Some(stage) = plan.stages.get(*at) {
            parts.push(stage_part_of(alloc, view, *at, stage)?)?;
        }
    }
    Ok(parts)
}

/// The first of these stages that has a name, the case of letters aside.
pub fn stage_part(
    alloc: Global,
    plan: &Plan,
    view: &RunView,
    depends: &[u32],
    name: &Text,
) -> Result<Option<Part>, Memory>
    ensures { IfOk result (λ part. part ≡ find (λ one. same_name name.now one.name)
        (spec.stage_parts plan.now view.now depends.now)) }
{
    let places = direct(alloc, depends, plan.stages.len())?;
    for at in places.as_slice() {
        if let Some(stage) = plan.stages.get(*at) {
            if is_named(&stage.name, name) {
                return Ok(Some(stage_part_of(alloc, view, *at, stage)?));
            }
        }
    }
    Ok(None)
}

fn group_of(alloc: Global, view: &RunView, at: usize, stage: &PlanStage) -> Result<Group, Memory>
    ensures { IfOk result (λ group. group ≡ spec.group_of view.now at stage.now) }
{
    let views = views_of(view, at);
    let name = stage.name.copy(alloc)?;
    let legs = all_legs(alloc, KeyForm::OfJob, stage.jobs.as_slice(), views)?;
    Ok(Group { name, legs })
}

/// The stages for which one waits directly, with their jobs, in the order of the plan.
pub fn stage_groups(
    alloc: Global,
    plan: &Plan,
    view: &RunView,
    depends: &[u32],
) -> Result<List<Group>, Memory>
    ensures { IfOk result (λ groups. groups ≡ spec.stage_groups plan.now view.now depends.now) }
{
    let places = direct(alloc, depends, plan.stages.len())?;
    let mut groups = List::new(alloc);
    for at in places.as_slice() {
        if let Some(stage) = plan.stages.get(*at) {
            groups.push(group_of(alloc, view, *at, stage)?)?;
        }
    }
    Ok(groups)
}

/// The first of these stages that has a name, the case of letters aside.
pub fn stage_group(
    alloc: Global,
    plan: &Plan,
    view: &RunView,
    depends: &[u32],
    name: &Text,
) -> Result<Option<Group>, Memory>
    ensures { IfOk result (λ group. group ≡ find (λ one. same_name name.now one.name)
        (spec.stage_groups plan.now view.now depends.now)) }
{
    let places = direct(alloc, depends, plan.stages.len())?;
    for at in places.as_slice() {
        if let Some(stage) = plan.stages.get(*at) {
            if is_named(&stage.name, name) {
                return Ok(Some(group_of(alloc, view, *at, stage)?));
            }
        }
    }
    Ok(None)
}

fn leg_members(alloc: Global, legs: &[Leg]) -> Result<List<Member>, Memory>
    ensures { IfOk result (λ members. members ≡ spec.leg_members legs.now) }
{
    let mut members = List::new(alloc);
    for leg in legs {
        let name = leg.job.copy(alloc)?;
        members.push(Member {
            name,
            result: leg.result,
        })?;
    }
    Ok(members)
}

fn legs_named(alloc: Global, legs: &[Leg], name: &Text) -> Result<List<Leg>, Memory>
    ensures { IfOk result (λ some. some ≡ filter (λ leg. same_name name.now leg.job) legs.now) }
{
    let mut some = List::new(alloc);
    for leg in legs {
        if is_named(&leg.job, name) {
            some.push(leg.copy(alloc)?)?;
        }
    }
    Ok(some)
}

fn job_part_of(alloc: Global, legs: &[Leg], name: &Text) -> Result<Part, Memory>
    ensures { IfOk result (λ part. part ≡ spec.job_part legs.now name.now) }
{
    let members = leg_members(alloc, legs)?;
    let result = result_of(members.as_slice(), name);
    let legs = legs_named(alloc, legs, name)?;
    let name = name.copy(alloc)?;
    Ok(Part { name, result, legs })
}

fn has_name(legs: &[Leg], name: &Text) -> bool
    ensures { result ≡ list_any (λ leg. same_name name.now leg.job) legs.now }
{
    legs.iter().any(|leg| is_named(&leg.job, name))
}

/// Whether a leg of a job of that name stands before a place.
fn is_before(legs: &[Leg], at: usize, name: &Text) -> bool
    requires { at ≤ length legs.now }
    ensures { result ≡ list_any (same_name name.now) (spec.names_of (take at legs.now)) }
{
    let (before, _behind) = legs.split_at(at);
    has_name(before, name)
}

/// The jobs of which these are legs, each where its first leg stands.
pub fn job_parts(alloc: Global, legs: &[Leg]) -> Result<List<Part>, Memory>
    ensures { IfOk result (λ parts. parts ≡ spec.job_parts legs.now) }
{
    let mut parts = List::new(alloc);
    for (at, leg) in legs.iter().enumerate() {
        if !is_before(legs, at, &leg.job) {
            parts.push(job_part_of(alloc, legs, &leg.job)?)?;
        }
    }
    Ok(parts)
}

fn first_named<'l>(legs: &'l [Leg], name: &Text) -> Option<&'l Leg>
    ensures { option_copied result ≡ find (λ leg. same_name name.now leg.job) legs.now }
{
    for leg in legs {
        if is_named(&leg.job, name) {
            return Some(leg);
        }
    }
    None
}

/// The first of these jobs that has a name, the case of letters aside.
pub fn job_part(alloc: Global, legs: &[Leg], name: &Text) -> Result<Option<Part>, Memory>
    ensures { IfOk result (λ part. part ≡ find (λ one. same_name name.now one.name)
        (spec.job_parts legs.now)) }
{
    match first_named(legs, name) {
        Some(first) => Ok(Some(job_part_of(alloc, legs, &first.job)?)),
        None => Ok(None),
    }
}
