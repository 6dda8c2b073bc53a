ghost use Rattle.std.specs.Prelude.{◌≡◌, IfOk, OnOk, [], ◌∷◌, ◌++◌, map};
ghost use Rattle.pl_schema_parts.specs.Gives.{Gives, Makes};
ghost use Rattle.pl_schema_parts.specs.Rows.{read_pair, in_order};
ghost use Rattle.pl_schema.specs.Pipelines as spec;

use crate::jobs::{jobs_in, new_job};
use crate::stages::{new_stage, stages_in};
use pl_base::{
    Behaviour, ExactCopy, Expanded, FileKey, List, MarkedNode, MarkedPair, Memory, Place,
    Repository, Text,
};
use pl_schema_parts::{
    JobSpec, Legs, Pipeline, PoolSpec, RepoRef, SchemaCode, SchemaFault, StageSpec, StepSpec,
    Variable, at_key, at_node, behaviour_in, has, legs_in, no_legs, pairs_in, pool_in, steps_in,
    truth_in, variables_in,
};
use std::alloc::Global;

/// What the root holds, once its pairs are read.
#[derive(Drop)]
pub struct Root {
    behaviour: Option<Behaviour>,
    pool: Option<PoolSpec>,
    variables: List<Variable>,
    groups: List<Text>,
    form: Form,
    strategy: Legs,
    go_on: bool,
}

/// What the root lists.
#[derive(Drop)]
pub enum Form {
    Nothing,
    Stages(List<StageSpec>),
    Jobs(List<JobSpec>),
    Steps(List<StepSpec>),
}

#[tactic(auto, unfolding(crate::specs::Pipelines::root_in))]
fn root_in(alloc: Global, node: &MarkedNode) -> Result<Root, SchemaFault>
    ensures { Gives result (spec.root_in node.now) }
{
    let pairs = pairs_in(alloc, node)?;
    if !has_some_form(pairs) {
        return Err(at_node(alloc, SchemaCode::MissingKey, node));
    }
    read_root(alloc, has(pairs, "steps"), pairs)
}

fn has_some_form(pairs: &[MarkedPair]) -> bool
    ensures { result ≡ spec.has_some_form pairs.now }
{
    has(pairs, "stages") || has(pairs, "jobs") || has(pairs, "steps")
}

fn new_root(alloc: Global) -> Root
    ensures { result ≡ spec.new_root }
{
    Root {
        behaviour: None,
        pool: None,
        variables: List::new(alloc),
        groups: List::new(alloc),
        form: Form::Nothing,
        strategy: no_legs(),
        go_on: false,
    }
}

fn read_root(alloc: Global, steps: bool, pairs: &[MarkedPair]) -> Result<Root, SchemaFault>
    ensures { Gives result (in_order (read_pair (spec.root_row steps)) spec.new_root pairs.now) }
{
    let mut root = new_root(alloc);
    for pair in pairs {
        root_pair(alloc, steps, &mut root, pair)?;
    }
    Ok(root)
}

/// What a pair makes of the root.
fn root_pair(
    alloc: Global,
    steps: bool,
    root: &mut Root,
    pair: &MarkedPair,
) -> Result<(), SchemaFault>
    ensures { Makes result root.new (read_pair (spec.root_row steps) root.old pair.now) }
{
    let node = &pair.item;
    match pair.key.as_str() {
        "stages" => set_stages(alloc, root, pair),
        "jobs" => set_jobs(alloc, root, pair),
        "steps" => set_steps(alloc, root, pair),
        "variables" => {
            let read = variables_in(alloc, node)?;
            root.variables = read.variables;
            root.groups = read.groups;
            Ok(())
        }
        "pool" => {
            root.pool = Some(pool_in(alloc, node)?);
            Ok(())
        }
        "lockBehavior" => {
            root.behaviour = Some(behaviour_in(alloc, node)?);
            Ok(())
        }
        "strategy" => set_strategy(alloc, steps, root, pair),
        "continueOnError" => set_go_on(alloc, steps, root, pair),
        "name"
        | "trigger"
        | "pr"
        | "schedules"
        | "appendCommitMessageToRunName"
        | "parameters"
        | "resources"
        | "workspace" => Ok(()),
        _ => Err(at_key(alloc, SchemaCode::UnknownKey, pair)),
    }
}

fn set_stages(alloc: Global, root: &mut Root, pair: &MarkedPair) -> Result<(), SchemaFault>
    ensures { Makes result root.new (spec.set_stages root.old pair.now) }
{
    if has_form(&root.form) {
        return Err(at_key(alloc, SchemaCode::TwoForms, pair));
    }
    root.form = Form::Stages(stages_in(alloc, &pair.item)?);
    Ok(())
}

fn set_jobs(alloc: Global, root: &mut Root, pair: &MarkedPair) -> Result<(), SchemaFault>
    ensures { Makes result root.new (spec.set_jobs root.old pair.now) }
{
    if has_form(&root.form) {
        return Err(at_key(alloc, SchemaCode::TwoForms, pair));
    }
    root.form = Form::Jobs(jobs_in(alloc, &pair.item)?);
    Ok(())
}

fn set_steps(alloc: Global, root: &mut Root, pair: &MarkedPair) -> Result<(), SchemaFault>
    ensures { Makes result root.new (spec.set_steps root.old pair.now) }
{
    if has_form(&root.form) {
        return Err(at_key(alloc, SchemaCode::TwoForms, pair));
    }
    root.form = Form::Steps(steps_in(alloc, &pair.item)?);
    Ok(())
}

fn has_form(form: &Form) -> bool
    ensures { result ≡ spec.has_form form.now }
{
    match form {
        Form::Nothing => false,
        Form::Stages(_) | Form::Jobs(_) | Form::Steps(_) => true,
    }
}

fn set_strategy(
    alloc: Global,
    steps: bool,
    root: &mut Root,
    pair: &MarkedPair,
) -> Result<(), SchemaFault>
    ensures { Makes result root.new (spec.set_strategy steps root.old pair.now) }
{
    if !steps {
        return Err(at_key(alloc, SchemaCode::UnknownKey, pair));
    }
    root.strategy = legs_in(alloc, &pair.item)?;
    Ok(())
}

fn set_go_on(
    alloc: Global,
    steps: bool,
    root: &mut Root,
    pair: &MarkedPair,
) -> Result<(), SchemaFault>
    ensures { Makes result root.new (spec.set_go_on steps root.old pair.now) }
{
    if !steps {
        return Err(at_key(alloc, SchemaCode::UnknownKey, pair));
    }
    root.go_on = truth_in(alloc, &pair.item)?;
    Ok(())
}

/// The one job of the root's steps.
fn only_job(
    alloc: Global,
    place: &Place,
    strategy: Legs,
    go_on: bool,
    steps: List<StepSpec>,
) -> Result<JobSpec, Memory>
    ensures { IfOk result (λ job. job ≡ spec.only_job place.now strategy go_on steps) }
{
    let mut job = new_job(alloc, false, place)?;
    job.name = Text::from_str(alloc, "Job")?;
    job.legs = strategy.legs;
    job.max_parallel = strategy.max_parallel;
    job.go_on = go_on;
    job.steps = steps;
    Ok(job)
}

/// The one stage of the root's jobs.
fn only_stage(alloc: Global, place: &Place, jobs: List<JobSpec>) -> Result<StageSpec, Memory>
    ensures { IfOk result (λ stage. stage ≡ spec.only_stage place.now jobs) }
{
    let mut stage = new_stage(alloc, place)?;
    stage.name = Text::from_str(alloc, "__default")?;
    stage.jobs = jobs;
    Ok(stage)
}

/// A list of one stage, which has these jobs.
fn in_one_stage(
    alloc: Global,
    place: &Place,
    jobs: List<JobSpec>,
) -> Result<List<StageSpec>, Memory>
    ensures { IfOk result (λ stages. stages ≡ spec.only_stage place.now jobs ∷ []) }
{
    let mut stages = List::new(alloc);
    stages.push(only_stage(alloc, place, jobs)?)?;
    Ok(stages)
}

/// The stages that the root's form makes.
fn stages_of(
    alloc: Global,
    place: &Place,
    strategy: Legs,
    go_on: bool,
    form: Form,
) -> Result<List<StageSpec>, Memory>
    ensures { IfOk result (λ stages. stages ≡ spec.stages_of place.now strategy go_on form) }
{
    match form {
        Form::Nothing => Ok(List::new(alloc)),
        Form::Stages(stages) => Ok(stages),
        Form::Jobs(jobs) => in_one_stage(alloc, place, jobs),
        Form::Steps(steps) => {
            let mut jobs = List::new(alloc);
            jobs.push(only_job(alloc, place, strategy, go_on, steps)?)?;
            in_one_stage(alloc, place, jobs)
        }
    }
}

/// The refs that a run is linked to: the root file's, then those of the repositories.
fn linked_refs(
    alloc: Global,
    root: &FileKey,
    repositories: &List<Repository>,
) -> Result<List<RepoRef>, Memory>
    ensures { IfOk result (λ linked. linked ≡ spec.linked_refs root.now repositories.now) }
{
    let mut linked = List::new(alloc);
    linked.push(repo_ref(alloc, &root.repo, &root.git_ref)?)?;
    push_refs(alloc, &mut linked, repositories.as_slice())?;
    Ok(linked)
}

fn push_refs(
    alloc: Global,
    linked: &mut List<RepoRef>,
    repositories: &[Repository],
) -> Result<(), Memory>
    ensures { OnOk result (linked.new ≡ linked.old ++ map spec.ref_of repositories.now) }
{
    for repository in repositories {
        linked.push(repo_ref(alloc, &repository.name, &repository.git_ref)?)?;
    }
    Ok(())
}

fn repo_ref(alloc: Global, repo: &Text, git_ref: &Text) -> Result<RepoRef, Memory>
    ensures { IfOk result (λ made. made ≡ spec.repo_ref repo.now git_ref.now) }
{
    let repo = repo.copy(alloc)?;
    let git_ref = git_ref.copy(alloc)?;
    Ok(RepoRef { repo, git_ref })
}

fn pipeline_from(alloc: Global, tree: &Expanded, root: Root) -> Result<Pipeline, Memory>
    ensures { IfOk result (λ pipeline. pipeline ≡ spec.pipeline_from tree.now root) }
{
    let Root {
        behaviour,
        pool,
        variables,
        groups,
        form,
        strategy,
        go_on,
    } = root;
    let place = &tree.tree.origin.source;
    let stages = stages_of(alloc, place, strategy, go_on, form)?;
    let linked = linked_refs(alloc, &tree.root, &tree.repositories)?;
    let root = tree.root.copy(alloc)?;
    let extends = tree.extends.copy(alloc)?;
    let repositories = tree.repositories.copy(alloc)?;
    Ok(Pipeline {
        root,
        extends,
        linked,
        repositories,
        behaviour,
        pool,
        variables,
        groups,
        stages,
    })
}

/// The pipeline that an expanded tree is (Microsoft Learn, Azure Pipelines, "YAML schema
/// reference").
///
/// The tree is read in its order: a node, then its items, or each key and then its value. Each
/// object has its own keys, some of which are passed over with any value; keys are exact, and
/// scalars count by their casts. An empty scalar is an empty list or mapping where one of these
/// is wanted. The jobs of a root without stages are those of one stage `__default`, and its steps
/// those of one job `Job` in it, both at the place of the root. Where a mapping has a key twice,
/// both are judged, and the later value counts. What templates gave is in the tree already, and
/// nothing is evaluated here.
///
/// A refusal has the code and the place of the first fault on that way, at one place that with
/// the smaller number:
///
/// - S1, at a key that the object doesn't have;
/// - S2, at a mapping that lacks a key: a stage its `jobs`, a job its `steps`, a deployment its
///   `environment` and its `strategy`, a strategy its `runOnce`, this its `deploy`, this its
///   `steps`, an environment its `name`, an item of variables its `name`, `value` or `group`, the
///   root all of `stages`, `jobs` and `steps`; or at a list of stages or jobs, or a name of an
///   environment, that is empty;
/// - S3, at a scalar, list or mapping where another is wanted, at a text that is no Boolean or no
///   behaviour of a lock, and at the later key of `matrix` and `parallel`;
/// - S4, at the name of a stage, job or step that isn't a letter or `_` with at most 99 letters,
///   digits and `_` behind it;
/// - S5, at an item that doesn't begin with `stage`, with `job` or `deployment`, or with a step
///   key;
/// - S6, at a name that another stage, job of the stage or step of the job before it has, the
///   case of ASCII's letters aside;
/// - S7, at the second of the keys `stages`, `jobs` and `steps` of the root, at the second step
///   key of a step, and at the key of an item of variables with which it has both a group and a
///   name or value;
/// - S8, at a number that doesn't read or is past its limits: 0 to 525,600 minutes, 1 to 100
///   legs, 1 to 256 legs at once;
/// - S9, at a condition that doesn't parse, and at a variable's value, also one of a leg of a
///   matrix, that begins with `$[` and ends with `]` and between these doesn't parse.
///
/// Memory may come at any time.
#[tactic(auto, unfolding(crate::specs::Pipelines::pipeline_of))]
pub fn pipeline_of(alloc: Global, tree: &Expanded) -> Result<Pipeline, SchemaFault>
    ensures { Gives result (spec.pipeline_of tree.now) }
{
    let root = root_in(alloc, &tree.tree)?;
    Ok(pipeline_from(alloc, tree, root)?)
}
