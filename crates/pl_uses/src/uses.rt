ghost use Rattle.std.specs.Prelude.{◌≡◌, ◌==◌, ◌∷◌, [], flat_map, IfOk, OnOk};
ghost use Rattle.std.specs.List.{before_first};
ghost use Rattle.pl_base.specs.declared.resource.Kind.TheVariants.{Group};
ghost use Rattle.pl_expr.specs.Conversions.{text_of};
ghost use Rattle.pl_uses.specs.Uses as spec;
ghost use Rattle.pl_uses.specs.Uses.{kept, pairs_of, put_all};

use crate::pools::{pool_name, pool_of};
use pl_base::{ExactCopy, Kind, List, MarkedPair, Memory, Repository, ResourceKey, Text, Value};
use pl_expr::to_text;
use pl_schema::{JobSpec, Pipeline, StageSpec, StepSpec};
use std::alloc::Global;
use std::collections::BTreeSet;

/// Resources, each once.
#[derive(Drop)]
pub struct Uses {
    keys: BTreeSet<ResourceKey>,
}

/// Puts one more among those that are used.
fn put(uses: &mut Uses, kind: Kind, name: Text) -> Result<(), Memory>
    ensures { OnOk result (kept uses.new ≡ put_all (kept uses.old) (spec.use_of kind name ∷ [])) }
{
    uses.keys.insert(ResourceKey { kind, name })?;
    Ok(())
}

fn put_groups(alloc: Global, uses: &mut Uses, groups: &[Text]) -> Result<(), Memory>
    ensures { OnOk result
        (kept uses.new ≡ put_all (kept uses.old) (spec.uses_by Group groups.now)) }
{
    for group in groups {
        put(uses, Kind::Group, group.copy(alloc)?)?;
    }
    Ok(())
}

/// What stands before the first dot of an environment.
fn environment_name(environment: &str) -> &str
    ensures { result.now ≡ before_first (λ byte. byte == 46) environment.now }
{
    match environment.split_once('.') {
        Some((name, _)) => name,
        None => environment,
    }
}

fn put_environment(alloc: Global, uses: &mut Uses, environment: &Option<Text>) -> Result<(), Memory>
    ensures { OnOk result
        (kept uses.new ≡ put_all (kept uses.old) (spec.environment_uses environment.now)) }
{
    if let Some(environment) = environment {
        let name = Text::from_str(alloc, environment_name(environment.as_str()))?;
        put(uses, Kind::Environment, name)?;
    }
    Ok(())
}

/// The text of a scalar; None for a list or a mapping.
fn scalar_of(alloc: Global, value: &Value) -> Result<Option<Text>, Memory>
    ensures { IfOk result (λ text. text ≡ text_of value.now) }
{
    match value {
        Value::Array(_) | Value::Object(_) => Ok(None),
        _ => Ok(Some(to_text(alloc, value)?)),
    }
}

fn pairs_of(value: &Value) -> &[MarkedPair]
    ensures { result.now ≡ pairs_of value.now }
{
    match value {
        Value::Object(pairs) => pairs.as_slice(),
        _ => &[],
    }
}

fn is_connection_input(input: &Text) -> bool
    ensures { result ≡ spec.is_connection_input input.now }
{
    matches!(
        input.as_str(),
        "azureSubscription"
            | "connectedServiceName"
            | "containerRegistry"
            | "kubernetesServiceConnection"
    )
}

fn put_input(alloc: Global, uses: &mut Uses, input: &MarkedPair) -> Result<(), Memory>
    ensures { OnOk result
        (kept uses.new ≡ put_all (kept uses.old) (spec.input_uses input.now)) }
{
    if !is_connection_input(&input.key) {
        return Ok(());
    }
    match scalar_of(alloc, &input.item.value)? {
        Some(name) => put(uses, Kind::Connection, name),
        None => Ok(()),
    }
}

fn put_inputs(alloc: Global, uses: &mut Uses, inputs: &[MarkedPair]) -> Result<(), Memory>
    ensures { OnOk result
        (kept uses.new ≡ put_all (kept uses.old) (flat_map spec.input_uses inputs.now)) }
{
    for input in inputs {
        put_input(alloc, uses, input)?;
    }
    Ok(())
}

/// What a task uses by a pair of its mapping: the connections of its inputs.
fn put_task_pair(alloc: Global, uses: &mut Uses, pair: &MarkedPair) -> Result<(), Memory>
    ensures { OnOk result
        (kept uses.new ≡ put_all (kept uses.old) (spec.task_uses pair.now)) }
{
    if pair.key.as_str() == "inputs" {
        put_inputs(alloc, uses, pairs_of(&pair.item.value))
    } else {
        Ok(())
    }
}

fn put_task(alloc: Global, uses: &mut Uses, pairs: &[MarkedPair]) -> Result<(), Memory>
    ensures { OnOk result
        (kept uses.new ≡ put_all (kept uses.old) (flat_map spec.task_uses pairs.now)) }
{
    for pair in pairs {
        put_task_pair(alloc, uses, pair)?;
    }
    Ok(())
}

/// The name of the repository with that alias, or the text itself.
fn repository_named(alloc: Global, repositories: &[Repository], text: &Text) -> Result<Text, Memory>
    ensures { IfOk result (λ name. name ≡ spec.repository_named repositories.now text.now) }
{
    for repository in repositories {
        if text.as_str() == repository.alias.as_str() {
            return repository.name.copy(alloc);
        }
    }
    text.copy(alloc)
}

/// Puts the repository that a text names, unless it is `self` or `none`.
fn put_repository(
    alloc: Global,
    uses: &mut Uses,
    repositories: &[Repository],
    text: &Text,
) -> Result<(), Memory>
    ensures { OnOk result (kept uses.new ≡ put_all (kept uses.old)
        (spec.checkout_of repositories.now (Some text.now))) }
{
    match text.as_str() {
        "self" | "none" => Ok(()),
        _ => put(
            uses,
            Kind::Repository,
            repository_named(alloc, repositories, text)?,
        ),
    }
}

fn put_checkout_pair(
    alloc: Global,
    uses: &mut Uses,
    repositories: &[Repository],
    pair: &MarkedPair,
) -> Result<(), Memory>
    ensures { OnOk result (kept uses.new ≡ put_all (kept uses.old)
        (spec.checkout_uses repositories.now pair.now)) }
{
    if pair.key.as_str() != "checkout" {
        return Ok(());
    }
    match scalar_of(alloc, &pair.item.value)? {
        Some(text) => put_repository(alloc, uses, repositories, &text),
        None => Ok(()),
    }
}

fn put_checkout(
    alloc: Global,
    uses: &mut Uses,
    repositories: &[Repository],
    pairs: &[MarkedPair],
) -> Result<(), Memory>
    ensures { OnOk result (kept uses.new ≡ put_all (kept uses.old)
        (flat_map (spec.checkout_uses repositories.now) pairs.now)) }
{
    for pair in pairs {
        put_checkout_pair(alloc, uses, repositories, pair)?;
    }
    Ok(())
}

fn put_step(
    alloc: Global,
    uses: &mut Uses,
    repositories: &[Repository],
    step: &StepSpec,
) -> Result<(), Memory>
    ensures { OnOk result (kept uses.new ≡ put_all (kept uses.old)
        (spec.step_uses repositories.now step.now)) }
{
    match step.form.as_str() {
        "task" => put_task(alloc, uses, pairs_of(&step.body.value)),
        "checkout" => put_checkout(alloc, uses, repositories, pairs_of(&step.body.value)),
        _ => Ok(()),
    }
}

fn put_steps(
    alloc: Global,
    uses: &mut Uses,
    repositories: &[Repository],
    steps: &[StepSpec],
) -> Result<(), Memory>
    ensures { OnOk result (kept uses.new ≡ put_all (kept uses.old)
        (flat_map (spec.step_uses repositories.now) steps.now)) }
{
    for step in steps {
        put_step(alloc, uses, repositories, step)?;
    }
    Ok(())
}

fn put_job(
    alloc: Global,
    uses: &mut Uses,
    pipeline: &Pipeline,
    stage: &StageSpec,
    job: &JobSpec,
) -> Result<(), Memory>
    ensures { OnOk result (kept uses.new ≡ put_all (kept uses.old)
        (spec.job_uses pipeline.now stage.now job.now)) }
{
    put_environment(alloc, uses, &job.environment)?;
    put_groups(alloc, uses, job.groups.as_slice())?;
    let pool = pool_name(alloc, pool_of(pipeline, stage, job))?;
    put(uses, Kind::Pool, pool)?;
    put_steps(
        alloc,
        uses,
        pipeline.repositories.as_slice(),
        job.steps.as_slice(),
    )
}

fn put_jobs(
    alloc: Global,
    uses: &mut Uses,
    pipeline: &Pipeline,
    stage: &StageSpec,
) -> Result<(), Memory>
    ensures { OnOk result (kept uses.new ≡ put_all (kept uses.old)
        (flat_map (spec.job_uses pipeline.now stage.now) stage.now.jobs)) }
{
    for job in stage.jobs.as_slice() {
        put_job(alloc, uses, pipeline, stage, job)?;
    }
    Ok(())
}

fn put_all(
    alloc: Global,
    uses: &mut Uses,
    pipeline: &Pipeline,
    stage: &StageSpec,
) -> Result<(), Memory>
    ensures { OnOk result (kept uses.new ≡ put_all (kept uses.old)
        (spec.all_uses pipeline.now stage.now)) }
{
    put_groups(alloc, uses, pipeline.groups.as_slice())?;
    put_groups(alloc, uses, stage.groups.as_slice())?;
    put_jobs(alloc, uses, pipeline, stage)
}

/// The resources that a stage uses, each once, by kind, then by name.
#[tactic(auto, unfolding(crate::specs::Uses::uses_of))]
pub fn uses_of(
    alloc: Global,
    pipeline: &Pipeline,
    stage: &StageSpec,
) -> Result<List<ResourceKey>, Memory>
    ensures { IfOk result (λ uses. uses ≡ spec.uses_of pipeline.now stage.now) }
{
    let mut uses = Uses {
        keys: BTreeSet::new(alloc),
    };
    put_all(alloc, &mut uses, pipeline, stage)?;
    let Uses { keys } = uses;
    let keys = keys.into_iter().collect(alloc)?;
    Ok(List::from_vec(keys))
}
