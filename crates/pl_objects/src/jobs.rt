ghost use Rattle.std.specs.Prelude.{◌≡◌, ◌++◌, ◌∷◌, [], map, IfOk, OnOk};
ghost use Rattle.pl_json.specs.declared.json.Json.TheVariants as json;
ghost use Rattle.pl_objects.specs.Jobs.{job_object, variable_array};
ghost use Rattle.pl_objects.specs.Steps.{step_object};
ghost use Rattle.pl_refusals.specs.Rows.{texts};

use crate::steps::step_object;
use pl_base::{ExactCopy, List, Memory, Text};
use pl_json::Json;
use pl_plan::{PlanJob, PlanStage, PlanStep, label_of};
use pl_refusals::{number, push, text};
use std::alloc::Global;

/// A job of a run as an agent gets it, by its stage, its plan and its variables: the groups of
/// variables of its stage and then its own, its label, its steps, its timeout in minutes, and its
/// variables as arrays of a name and a value. Memory where memory is wanting.
pub fn job_object(
    alloc: Global,
    run: u64,
    stage: &PlanStage,
    job: &PlanJob,
    variables: &List<(Text, Text)>,
) -> Result<Json, Memory>
    ensures { IfOk result (λ made. made ≡ job_object run stage.now job.now variables.now) }
{
    let mut members = List::new(alloc);
    let groups = groups_array(alloc, &stage.groups, &job.groups)?;
    push(alloc, &mut members, "groups", groups)?;
    let label = Json::Text(label_of(alloc, job)?);
    push(alloc, &mut members, "job", label)?;
    members.push(number(alloc, "run", run)?)?;
    members.push(text(alloc, "stage", &stage.name)?)?;
    let steps = steps_array(alloc, &job.steps)?;
    push(alloc, &mut members, "steps", steps)?;
    members.push(number(alloc, "timeout", u64::from(job.timeout))?)?;
    let variables = variables_array(alloc, variables)?;
    push(alloc, &mut members, "variables", variables)?;
    Json::object(alloc, members)
}

/// The groups of a stage, and then those of a job.
fn groups_array(alloc: Global, first: &List<Text>, then: &List<Text>) -> Result<Json, Memory>
    ensures { IfOk result (λ made. made ≡ texts (first.now ++ then.now)) }
{
    let mut items = List::new(alloc);
    push_texts(alloc, &mut items, first)?;
    push_texts(alloc, &mut items, then)?;
    Ok(Json::Array(items))
}

/// Puts texts behind the last item.
fn push_texts(alloc: Global, items: &mut List<Json>, told: &List<Text>) -> Result<(), Memory>
    ensures { OnOk result (items.new ≡ items.old ++ map json.Text told.now) }
{
    for text in told.as_slice() {
        items.push(Json::Text(text.copy(alloc)?))?;
    }
    Ok(())
}

fn steps_array(alloc: Global, steps: &List<PlanStep>) -> Result<Json, Memory>
    ensures { IfOk result (λ made. made ≡ json.Array (map step_object steps.now)) }
{
    let mut items = List::new(alloc);
    for step in steps.as_slice() {
        items.push(step_object(alloc, step)?)?;
    }
    Ok(Json::Array(items))
}

fn variables_array(alloc: Global, variables: &List<(Text, Text)>) -> Result<Json, Memory>
    ensures { IfOk result (λ made. made ≡ json.Array (map variable_array variables.now)) }
{
    let mut items = List::new(alloc);
    for variable in variables.as_slice() {
        items.push(variable_array(alloc, variable)?)?;
    }
    Ok(Json::Array(items))
}

/// A variable's name and its value.
fn variable_array(alloc: Global, told: &(Text, Text)) -> Result<Json, Memory>
    ensures { IfOk result (λ made. made ≡ variable_array told.now) }
{
    let mut items = List::new(alloc);
    items.push(Json::Text(told.0.copy(alloc)?))?;
    items.push(Json::Text(told.1.copy(alloc)?))?;
    Ok(Json::Array(items))
}
