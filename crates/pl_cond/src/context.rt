ghost use Rattle.std.specs.Prelude.{◌≡◌, ◌≢◌, IfOk, MatchOption, find, [], None};
ghost use Rattle.std.specs.Option.{option_copied};
ghost use Rattle.pl_eval.specs.Known.{root_of, same_name};
ghost use Rattle.pl_eval.specs.Means.{answer};
ghost use Rattle.pl_cond.specs.Contexts as spec;
ghost use Rattle.pl_cond.specs.Contexts.{Fits, here_in, known_in};
ghost use Rattle.pl_cond.specs.Objects as object;
ghost use Rattle.pl_cond.specs.Paths.{LeadsTo, inside, path_means};
ghost use Rattle.pl_results.specs.Nodes.{CanRun, IsNodeOf};

use crate::objects::variables_value;
use crate::paths::{groups_along, jobs_along, stages_along};
use crate::variables::Variable;
use pl_base::{Crossing, ExactCopy, Memory, Origin, Place, Shared, SharedList, Text, Value};
use pl_literal::spells;
use pl_plan::Plan;
use pl_results::{
    PlanNode, RunView, Statuses, direct_legs, is_named, jobs_of, members_of, views_of,
};
use std::alloc::Global;

/// A stage or a job of a plan whose expressions are asked for, beside how its run stands.
#[derive(Drop)]
pub struct Context<'a> {
    pub plan: &'a Plan,
    pub view: &'a RunView,
    pub node: PlanNode,
    /// Where the values come from that its expressions make.
    pub here: Origin,
    pub statuses: Statuses,
}

/// The origin of the values of a plan's conditions: they are made, and belong to the root file.
fn here_in(alloc: Global, plan: &Plan) -> Result<Origin, Memory>
    ensures { IfOk result (λ here. here ≡ here_in plan.now) }
{
    let file = Shared::new(alloc, plan.root.copy(alloc)?)?;
    let source = Place::at(alloc, &file, 1, 1)?;
    let none = SharedList::new(alloc)?;
    let crossings = none.with(alloc, Crossing::Made)?;
    Ok(Origin { source, crossings })
}

/// What is to be known of a stage or a job. All for which it waits is found here, once.
pub fn context_of<'a>(
    alloc: Global,
    plan: &'a Plan,
    view: &'a RunView,
    node: PlanNode,
) -> Result<Context<'a>, Memory>
    requires runs { CanRun plan.now }
    requires within { IsNodeOf plan.now node }
    ensures fits { IfOk result (λ context. Fits context) }
    ensures is { IfOk result (λ context. (context.plan.now ≡ plan.now)
        × (context.view.now ≡ view.now) × (context.node ≡ node)) }
{
    let here = here_in(alloc, plan)?;
    let members = members_of(alloc, plan, view, node)?;
    Ok(Context {
        plan,
        view,
        node,
        here,
        statuses: Statuses {
            canceled: view.canceled,
            members,
        },
    })
}

/// What a stage waits for directly.
fn stage_depends(plan: &Plan, stage: u32) -> &[u32]
    ensures { result.now ≡ spec.stage_depends plan.now stage }
{
    match plan.stages.get(stage as usize) {
        Some(one) => one.depends.as_slice(),
        None => &[],
    }
}

/// What a job waits for directly.
fn job_depends(plan: &Plan, stage: u32, job: u32) -> &[u32]
    ensures { result.now ≡ spec.job_depends plan.now stage job }
{
    match jobs_of(plan, stage as usize).get(job as usize) {
        Some(one) => one.depends.as_slice(),
        None => &[],
    }
}

/// What names lead to in `dependencies`.
fn dependencies_along(alloc: Global, context: &Context, names: &[Text]) -> Result<Value, Memory>
    ensures { IfOk result (λ value. inside context.now.here (spec.dependencies_at context.now.here
        context.now.plan.now context.now.view.now context.now.node) names.now
        ≡ answer context.now.here value) }
{
    match context.node {
        PlanNode::Stage(stage) => {
            let depends = stage_depends(context.plan, stage);
            stages_along(
                alloc,
                &context.here,
                context.plan,
                context.view,
                depends,
                names,
            )
        }
        PlanNode::Job(stage, job) => {
            let jobs = jobs_of(context.plan, stage as usize);
            let views = views_of(context.view, stage as usize);
            let depends = job_depends(context.plan, stage, job);
            let legs = direct_legs(alloc, jobs, views, depends)?;
            jobs_along(alloc, &context.here, legs.as_slice(), names)
        }
    }
}

/// What names lead to in `stageDependencies`, or None in a stage, which doesn't see it.
fn stage_dependencies_along(
    alloc: Global,
    context: &Context,
    names: &[Text],
) -> Result<Option<Value>, Memory>
    ensures { IfOk result (λ value. LeadsTo context.now.here (spec.stage_dependencies_at
        context.now.here context.now.plan.now context.now.view.now context.now.node) names.now
        value) }
{
    match context.node {
        PlanNode::Stage(_) => Ok(None),
        PlanNode::Job(stage, _) => {
            let depends = stage_depends(context.plan, stage);
            let value = groups_along(
                alloc,
                &context.here,
                context.plan,
                context.view,
                depends,
                names,
            )?;
            Ok(Some(value))
        }
    }
}

fn variable_named<'v>(variables: &'v [Variable], name: &Text) -> Option<&'v Variable>
    ensures { option_copied result ≡ find (λ one. same_name name.now one.name) variables.now }
{
    for variable in variables {
        if is_named(&variable.name, name) {
            return Some(variable);
        }
    }
    None
}

/// What at most one name leads to in `variables`.
fn variables_along(
    alloc: Global,
    here: &Origin,
    variables: &[Variable],
    names: &[Text],
) -> Result<Option<Value>, Memory>
    ensures { IfOk result (λ value. MatchOption value (names.now ≢ []) (λ found.
        inside here.now (object.variables_value here.now variables.now) names.now
        ≡ answer here.now found)) }
{
    match names {
        [] => Ok(Some(variables_value(alloc, here, variables)?)),
        [name] => match variable_named(variables, name) {
            Some(variable) => Ok(Some(variable.value.copy(alloc)?)),
            None => Ok(Some(Value::Null)),
        },
        _ => Ok(None),
    }
}

/// What names lead to from a root on. None comes where there is no such root, and for names that
/// aren't looked up here.
pub fn root_along(
    alloc: Global,
    context: &Context,
    variables: &[Variable],
    root: &Text,
    names: &[Text],
) -> Result<Option<Value>, Memory>
    requires { Fits context.now }
    ensures { IfOk result (λ value. MatchOption value
        (names.now ≡ [] → root_of (known_in context.now variables.now) root.now ≡ None)
        (λ found. path_means (known_in context.now variables.now) context.now.here root.now
        names.now ≡ answer context.now.here found)) }
{
    if spells(root.as_str(), "dependencies") {
        return Ok(Some(dependencies_along(alloc, context, names)?));
    }
    if spells(root.as_str(), "stageDependencies") {
        return stage_dependencies_along(alloc, context, names);
    }
    if spells(root.as_str(), "variables") {
        return variables_along(alloc, &context.here, variables, names);
    }
    Ok(None)
}
