ghost use Rattle.std.specs.Prelude.{◌≡◌, [], true, IfOk};
ghost use Rattle.pl_schema_parts.specs.Gives.{Gives, Makes};
ghost use Rattle.pl_schema_parts.specs.Names.{is_taken, taken};
ghost use Rattle.pl_schema_parts.specs.Rows.{read_pair, in_order, in_turn};
ghost use Rattle.pl_schema.specs.Jobs as spec;

use crate::strategy::strategy_in;
use pl_base::{ExactCopy, List, MarkedNode, MarkedPair, Memory, Place, Text};
use pl_literal::{ItemKind, kind_of_key};
use pl_schema_parts::{
    JobSpec, LegSpec, Names, SchemaCode, SchemaFault, at_key, at_node, condition_in, depends_in,
    environment_in, has, items_in, legs_in, limited_in, name_in, no_names, pairs_in, pool_in,
    steps_in, take, truth_in, variables_in,
};
use std::alloc::Global;

/// How long a job may take at most, in minutes.
const LONGEST: u32 = 525_600;

/// The jobs of a stage, of which there must be one.
#[tactic(auto, unfolding(crate::specs::Jobs::jobs_in))]
pub fn jobs_in(alloc: Global, node: &MarkedNode) -> Result<List<JobSpec>, SchemaFault>
    ensures { Gives result (spec.jobs_in node.now) }
{
    let items = items_in(alloc, node)?;
    if items.is_empty() {
        return Err(at_node(alloc, SchemaCode::MissingKey, node));
    }
    jobs_of(alloc, items)
}

fn jobs_of(alloc: Global, items: &[MarkedNode]) -> Result<List<JobSpec>, SchemaFault>
    ensures { Gives result (in_turn (λ jobs item. spec.job_in (is_taken (spec.job_names jobs)) item)
        [] items.now) }
{
    let mut names = no_names(alloc);
    let mut jobs = List::new(alloc);
    for item in items {
        let job = job_in(alloc, &names, item)?;
        take(alloc, &mut names, &job.name)?;
        jobs.push(job)?;
    }
    Ok(jobs)
}

/// A job or a deployment, by its first key.
#[tactic(auto, unfolding(crate::specs::Jobs::job_in))]
fn job_in(alloc: Global, names: &Names, node: &MarkedNode) -> Result<JobSpec, SchemaFault>
    ensures { Gives result (spec.job_in (taken names.now) node.now) }
{
    let pairs = pairs_in(alloc, node)?;
    let [first, ..] = pairs else {
        return Err(at_node(alloc, SchemaCode::FirstKey, node));
    };
    match kind_of_key(&first.key) {
        Some(ItemKind::Job) => job_of(alloc, names, node, pairs),
        Some(ItemKind::Deployment) => deployment_of(alloc, names, node, pairs),
        _ => Err(at_node(alloc, SchemaCode::FirstKey, node)),
    }
}

/// A job before its first key.
pub fn new_job(alloc: Global, deployment: bool, place: &Place) -> Result<JobSpec, Memory>
    ensures { IfOk result (λ job. job ≡ spec.new_job deployment place.now) }
{
    let place = place.copy(alloc)?;
    Ok(JobSpec {
        name: Text::new(alloc),
        place,
        deployment,
        depends: None,
        condition: None,
        variables: List::new(alloc),
        groups: List::new(alloc),
        pool: None,
        environment: None,
        legs: LegSpec::One,
        max_parallel: None,
        timeout: None,
        go_on: false,
        steps: List::new(alloc),
    })
}

#[tactic(auto, unfolding(crate::specs::Jobs::job_of))]
fn job_of(
    alloc: Global,
    names: &Names,
    node: &MarkedNode,
    pairs: &[MarkedPair],
) -> Result<JobSpec, SchemaFault>
    ensures { Gives result (spec.job_of (taken names.now) node.now pairs.now) }
{
    if !has(pairs, "steps") {
        return Err(at_node(alloc, SchemaCode::MissingKey, node));
    }
    let mut job = new_job(alloc, false, &node.origin.source)?;
    read_job(alloc, names, &mut job, pairs)?;
    Ok(job)
}

fn read_job(
    alloc: Global,
    names: &Names,
    job: &mut JobSpec,
    pairs: &[MarkedPair],
) -> Result<(), SchemaFault>
    ensures { Makes result job.new (in_order (read_pair (spec.job_row (taken names.now))) job.old
        pairs.now) }
{
    for pair in pairs {
        job_pair(alloc, names, job, pair)?;
    }
    Ok(())
}

/// What a pair makes of a job.
fn job_pair(
    alloc: Global,
    names: &Names,
    job: &mut JobSpec,
    pair: &MarkedPair,
) -> Result<(), SchemaFault>
    ensures { Makes result job.new (read_pair (spec.job_row (taken names.now)) job.old pair.now) }
{
    let node = &pair.item;
    match pair.key.as_str() {
        "job" => job.name = name_in(alloc, names, node)?,
        "strategy" => {
            let read = legs_in(alloc, node)?;
            job.legs = read.legs;
            job.max_parallel = read.max_parallel;
        }
        "steps" => job.steps = steps_in(alloc, node)?,
        _ => return shared_pair(alloc, job, pair),
    }
    Ok(())
}

/// What a pair makes of a job or a deployment, by the keys that both have.
fn shared_pair(alloc: Global, job: &mut JobSpec, pair: &MarkedPair) -> Result<(), SchemaFault>
    ensures { Makes result job.new (read_pair spec.shared_row job.old pair.now) }
{
    let node = &pair.item;
    match pair.key.as_str() {
        "dependsOn" => job.depends = Some(depends_in(alloc, node)?),
        "condition" => job.condition = Some(condition_in(alloc, node)?),
        "continueOnError" => job.go_on = truth_in(alloc, node)?,
        "pool" => job.pool = Some(pool_in(alloc, node)?),
        "timeoutInMinutes" => job.timeout = Some(limited_in(alloc, 0, LONGEST, node)?),
        "variables" => {
            let read = variables_in(alloc, node)?;
            job.variables = read.variables;
            job.groups = read.groups;
        }
        "displayName" | "workspace" | "cancelTimeoutInMinutes" | "templateContext" => {}
        _ => return Err(at_key(alloc, SchemaCode::UnknownKey, pair)),
    }
    Ok(())
}

#[tactic(auto, unfolding(crate::specs::Jobs::deployment_of))]
fn deployment_of(
    alloc: Global,
    names: &Names,
    deployment: &MarkedNode,
    pairs: &[MarkedPair],
) -> Result<JobSpec, SchemaFault>
    ensures { Gives result (spec.deployment_of (taken names.now) deployment.now pairs.now) }
{
    if !is_whole_deployment(pairs) {
        return Err(at_node(alloc, SchemaCode::MissingKey, deployment));
    }
    new_deployment(alloc, names, &deployment.origin.source, pairs)
}

/// Whether a deployment has what it must have.
fn is_whole_deployment(pairs: &[MarkedPair]) -> bool
    ensures { result ≡ spec.is_whole_deployment pairs.now }
{
    has(pairs, "environment") && has(pairs, "strategy")
}

fn new_deployment(
    alloc: Global,
    names: &Names,
    place: &Place,
    pairs: &[MarkedPair],
) -> Result<JobSpec, SchemaFault>
    ensures { Gives result (in_order (read_pair (spec.deployment_row (taken names.now)))
        (spec.new_job true place.now) pairs.now) }
{
    let mut job = new_job(alloc, true, place)?;
    read_deployment(alloc, names, &mut job, pairs)?;
    Ok(job)
}

fn read_deployment(
    alloc: Global,
    names: &Names,
    job: &mut JobSpec,
    pairs: &[MarkedPair],
) -> Result<(), SchemaFault>
    ensures { Makes result job.new (in_order (read_pair (spec.deployment_row (taken names.now)))
        job.old pairs.now) }
{
    for pair in pairs {
        deployment_pair(alloc, names, job, pair)?;
    }
    Ok(())
}

/// What a pair makes of a deployment.
fn deployment_pair(
    alloc: Global,
    names: &Names,
    job: &mut JobSpec,
    pair: &MarkedPair,
) -> Result<(), SchemaFault>
    ensures { Makes result job.new (read_pair (spec.deployment_row (taken names.now)) job.old
        pair.now) }
{
    let node = &pair.item;
    match pair.key.as_str() {
        "deployment" => job.name = name_in(alloc, names, node)?,
        "environment" => job.environment = Some(environment_in(alloc, node)?),
        "strategy" => job.steps = strategy_in(alloc, node)?,
        _ => return shared_pair(alloc, job, pair),
    }
    Ok(())
}
