ghost use Rattle.std.specs.Prelude.{◌≡◌, IfOk, [], fold, map};
ghost use Rattle.std.specs.Option.{option_copied};
ghost use Rattle.pl_base.specs.declared.value.Value.{Str};
ghost use Rattle.pl_cond.specs.Contexts.{Fits};
ghost use Rattle.pl_cond.specs.Placing.{placed};
ghost use Rattle.pl_cond.specs.Variables as spec;

use crate::context::Context;
use crate::evaluating::value_or_null;
use crate::gathering::Gathered;
use crate::variables::Variable;
use pl_base::{ExactCopy, List, Memory, Text, Value};
use pl_expr::{Expr, to_text};
use pl_plan::Plan;
use pl_results::{PlanNode, jobs_of};
use pl_schema::Variable as Written;
use std::alloc::Global;

/// The value of a written variable, beside those before it.
fn value_of(
    alloc: Global,
    context: &Context,
    before: &[Variable],
    text: &Text,
    late: &Option<Expr>,
) -> Result<Value, Memory>
    requires { Fits context.now }
    ensures { IfOk result (λ value. value ≡ spec.value_of context.now.plan.now
        context.now.view.now context.now.node before.now text.now late.now) }
{
    match late {
        Some(late) => value_or_null(alloc, context, before, late),
        None => Ok(Value::Str(text.copy(alloc)?)),
    }
}

/// The variables with one more that is written.
fn with_variable(
    alloc: Global,
    context: &Context,
    before: Gathered,
    written: &Written,
) -> Result<Gathered, Memory>
    requires { Fits context.now }
    ensures { IfOk result (λ all. all.variables ≡ spec.with_variable context.now.plan.now
        context.now.view.now context.now.node before.variables written.now) }
{
    let variables = before.variables.as_slice();
    let value = value_of(alloc, context, variables, &written.value, &written.late)?;
    let name = written.name.copy(alloc)?;
    before.with(alloc, Variable { name, value })
}

fn with_all(
    alloc: Global,
    context: &Context,
    before: Gathered,
    written: &[Written],
) -> Result<Gathered, Memory>
    requires { Fits context.now }
    ensures { IfOk result (λ all. all.variables ≡ fold (spec.with_variable context.now.plan.now
        context.now.view.now context.now.node) before.variables written.now) }
{
    let mut all = before;
    for one in written {
        all = with_variable(alloc, context, all, one)?;
    }
    Ok(all)
}

/// The variables of the pipeline and of a stage, as they are written.
fn stage_variables(plan: &Plan, stage: u32) -> &[Written]
    ensures { result.now ≡ spec.stage_variables plan.now stage }
{
    match plan.stages.get(stage as usize) {
        Some(one) => one.variables.as_slice(),
        None => &[],
    }
}

/// The variables of a job and of its leg, as they are written.
fn job_variables(plan: &Plan, stage: u32, job: u32) -> &[Written]
    ensures { result.now ≡ spec.job_variables plan.now stage job }
{
    match jobs_of(plan, stage as usize).get(job as usize) {
        Some(one) => one.variables.as_slice(),
        None => &[],
    }
}

/// The variables that are written, with their values: those of the pipeline and the stage, then
/// those of the job and the leg.
pub fn written_variables(alloc: Global, context: &Context) -> Result<Gathered, Memory>
    requires { Fits context.now }
    ensures { IfOk result (λ all. all.variables ≡ spec.written_variables context.now.plan.now
        context.now.view.now context.now.node) }
{
    let none = Gathered::new(alloc);
    match context.node {
        PlanNode::Stage(stage) => {
            with_all(alloc, context, none, stage_variables(context.plan, stage))
        }
        PlanNode::Job(stage, job) => {
            let first = with_all(alloc, context, none, stage_variables(context.plan, stage))?;
            with_all(
                alloc,
                context,
                first,
                job_variables(context.plan, stage, job),
            )
        }
    }
}

/// The part of a ref behind its last `/`, or the whole ref where it has none.
fn last_segment(git_ref: &str) -> &str
    ensures { result.now ≡ spec.last_segment [] git_ref.now }
{
    match git_ref.rsplit_once('/') {
        Some((_front, last)) => last,
        None => git_ref,
    }
}

fn text_variable(alloc: Global, name: &str, text: &str) -> Result<Variable, Memory>
    ensures { IfOk result (λ made. made ≡ spec.evaluated name.now (Str text.now)) }
{
    let name = Text::from_str(alloc, name)?;
    let value = Value::Str(Text::from_str(alloc, text)?);
    Ok(Variable { name, value })
}

/// The variables with those of the run: its ref, the ref's last segment, and the reason.
fn with_run(alloc: Global, before: Gathered, git_ref: &str) -> Result<Gathered, Memory>
    ensures { IfOk result (λ all. all.variables ≡
        fold placed before.variables (spec.run_variables git_ref.now)) }
{
    let branch = text_variable(alloc, "Build.SourceBranch", git_ref)?;
    let name = text_variable(alloc, "Build.SourceBranchName", last_segment(git_ref))?;
    let reason = text_variable(alloc, "Build.Reason", "Manual")?;
    let with_branch = before.with(alloc, branch)?;
    let with_name = with_branch.with(alloc, name)?;
    let all = with_name.with(alloc, reason)?;
    Ok(all)
}

/// All variables that a condition sees: those that are written, then those of the run, which win.
pub fn all_variables(alloc: Global, context: &Context) -> Result<List<Variable>, Memory>
    requires { Fits context.now }
    ensures { IfOk result (λ all. all ≡ spec.variables_at context.now.plan.now
        context.now.view.now context.now.node) }
{
    let written = written_variables(alloc, context)?;
    let all = with_run(alloc, written, context.plan.root.git_ref.as_str())?;
    Ok(all.into_variables())
}

/// Variables as texts.
pub fn as_texts(alloc: Global, variables: &[Variable]) -> Result<List<(Text, Text)>, Memory>
    ensures { IfOk result (λ texts. texts ≡ map spec.as_text variables.now) }
{
    let mut texts = List::new(alloc);
    for variable in variables {
        let name = variable.name.copy(alloc)?;
        let text = to_text(alloc, &variable.value)?;
        texts.push((name, text))?;
    }
    Ok(texts)
}
