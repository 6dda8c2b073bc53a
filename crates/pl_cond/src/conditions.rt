ghost use Rattle.std.specs.Prelude.{◌≡◌, ◌<◌, IfOk, length};
ghost use Rattle.std.specs.Option.{option_copied};
ghost use Rattle.pl_cond.specs.Conditions as spec;
ghost use Rattle.pl_eval.specs.Means.{means};
ghost use Rattle.pl_cond.specs.Contexts.{Fits, known_in};
ghost use Rattle.pl_cond.specs.Variables.{variables_at, variables_of};
ghost use Rattle.pl_results.specs.Nodes.{CanRun, IsNodeOf, jobs_of};
ghost use Rattle.pl_results.specs.declared.members.PlanNode.TheVariants.{Job, Stage};

use crate::context::{Context, context_of};
use crate::evaluating::counts;
use crate::needs::has_variables;
use crate::variables::Variable;
use crate::written::{all_variables, as_texts, written_variables};
use pl_base::{List, Memory, Text};
use pl_eval::Names;
use pl_expr::{Expr, Function};
use pl_plan::Plan;
use pl_results::{PlanNode, RunView, jobs_of};
use std::alloc::Global;

fn condition_at(plan: &Plan, node: PlanNode) -> Option<&Expr>
    ensures { option_copied result ≡ spec.condition_at plan.now node }
{
    match node {
        PlanNode::Stage(stage) => match plan.stages.get(stage as usize) {
            Some(one) => one.condition.as_ref(),
            None => None,
        },
        PlanNode::Job(stage, job) => match jobs_of(plan, stage as usize).get(job as usize) {
            Some(one) => one.condition.as_ref(),
            None => None,
        },
    }
}

/// The variables beside which a condition means what it means beside all: all where it has their
/// name, and else none.
fn variables_for(
    alloc: Global,
    context: &Context,
    condition: &Expr,
) -> Result<List<Variable>, Memory>
    requires { Fits context.now }
    ensures { IfOk result (λ some. means (known_in context.now some) context.now.here condition.now
        ≡ means (known_in context.now (variables_at context.now.plan.now context.now.view.now
        context.now.node)) context.now.here condition.now) }
{
    if has_variables(condition) {
        all_variables(alloc, context)
    } else {
        Ok(List::new(alloc))
    }
}

fn holds_in(alloc: Global, context: &Context, condition: Option<&Expr>) -> Result<bool, Memory>
    requires { Fits context.now }
    ensures { IfOk result (λ is. is ≡ spec.holds_by (option_copied condition.entry)
        context.now.plan.now context.now.view.now context.now.node) }
{
    match condition {
        Some(condition) => {
            let variables = variables_for(alloc, context, condition)?;
            counts(alloc, context, variables.as_slice(), condition)
        }
        None => Ok(
            context
                .statuses
                .status(Function::Succeeded, &List::new(alloc)),
        ),
    }
}

/// Whether a stage or a job is to run.
#[tactic(auto, unfolding(crate::specs::Conditions::holds))]
fn holds(alloc: Global, plan: &Plan, view: &RunView, node: PlanNode) -> Result<bool, Memory>
    requires runs { CanRun plan.now }
    requires within { IsNodeOf plan.now node }
    ensures { IfOk result (λ is. is ≡ spec.holds plan.now view.now node) }
{
    let context = context_of(alloc, plan, view, node)?;
    holds_in(alloc, &context, condition_at(plan, node))
}

/// Whether a stage is to run, asked once those for which it waits have ended (Microsoft Learn,
/// Azure Pipelines, "Specify conditions" and "Expressions").
///
/// `stage` is its place in the plan, and `view` how the run stands. The value of its condition
/// counts by its cast to Boolean, and a fault in it counts as false; without a condition it is
/// `succeeded()`. It sees
///
/// - `dependencies.N`, for the stages for which it waits directly: `result`, and `outputs`, each by
///   `J.step.variable` with the job's name J, by `J.leg.step.variable` for a leg, and by
///   `J.J.step.variable` for a deployment;
/// - `variables`: the pipeline's and its own, a later one in the place of an earlier one of its
///   name,
///   `$[ ]` evaluated in order over those before it (a fault gives Null), and at the end
///   `Build.SourceBranch`, `Build.SourceBranchName` and `Build.Reason`, which win;
/// - by status functions all stages for which it waits, directly or through others; one that isn't
///   such a stage has no result.
///
/// Names are found without regard to the case of ASCII's letters; properties stand in the plan's
/// order, `result` before `outputs`, the outputs of one job in the order of bytes. What the view
/// lacks hasn't ended: its result is Null, and it has no outputs. That a plan can run is what
/// `plan_of` makes sure of (`each_plan_can_run`). Memory may come at any time, and nothing else.
pub fn stage_condition(
    alloc: Global,
    plan: &Plan,
    stage: u32,
    view: &RunView,
) -> Result<bool, Memory>
    requires runs { CanRun plan.now }
    requires within { stage < length plan.now.stages }
    ensures { IfOk result (λ is. is ≡ spec.holds plan.now view.now (Stage stage)) }
{
    holds(alloc, plan, view, PlanNode::Stage(stage))
}

/// Whether a job is to run, asked once the jobs of its stage for which it waits have ended.
///
/// `stage` is its stage's place in the plan and `job` its own in that stage, where each leg of a
/// job has one. As for a stage, except that `dependencies.J` are the jobs of its stage for which it
/// waits directly, with outputs by `step.variable`, `leg.step.variable` and, for a deployment,
/// `J.step.variable`; that it sees `stageDependencies.S.J` besides, for the stages S for which its
/// stage waits directly; that its variables and its leg's stand behind the stage's; and that status
/// functions look at jobs of its stage. A job's result is the combined one of its legs, once all of
/// them have ended; without names status functions look at legs one by one.
pub fn job_condition(
    alloc: Global,
    plan: &Plan,
    stage: u32,
    job: u32,
    view: &RunView,
) -> Result<bool, Memory>
    requires runs { CanRun plan.now }
    requires stage { stage < length plan.now.stages }
    requires job { job < length (jobs_of plan.now stage) }
    ensures { IfOk result (λ is. is ≡ spec.holds plan.now view.now (Job stage job)) }
{
    holds(alloc, plan, view, PlanNode::Job(stage, job))
}

/// The variables that a job is handed, as texts (Microsoft Learn, Azure Pipelines, "Define
/// variables"): the pipeline's, its stage's, its own and its leg's, in this order, a later one in
/// the place of an earlier one of its name with its own spelling. `$[ ]` is evaluated in order over
/// those before it, in the job's contexts, and cast to text; a fault gives the empty text. The
/// run's own variables aren't among them. Memory may come at any time, and nothing else.
#[tactic(auto, unfolding(crate::specs::Variables::variables_of))]
pub fn variables_of(
    alloc: Global,
    plan: &Plan,
    stage: u32,
    job: u32,
    view: &RunView,
) -> Result<List<(Text, Text)>, Memory>
    requires runs { CanRun plan.now }
    requires stage { stage < length plan.now.stages }
    requires job { job < length (jobs_of plan.now stage) }
    ensures { IfOk result (λ all. all ≡ variables_of plan.now view.now stage job) }
{
    let context = context_of(alloc, plan, view, PlanNode::Job(stage, job))?;
    let written = written_variables(alloc, &context)?;
    as_texts(alloc, written.variables.as_slice())
}
