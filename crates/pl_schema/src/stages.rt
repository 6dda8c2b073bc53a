ghost use Rattle.std.specs.Prelude.{◌≡◌, [], IfOk};
ghost use Rattle.pl_schema_parts.specs.Gives.{Gives, Makes};
ghost use Rattle.pl_schema_parts.specs.Names.{is_taken, taken};
ghost use Rattle.pl_schema_parts.specs.Rows.{read_pair, in_order, in_turn};
ghost use Rattle.pl_schema.specs.Stages as spec;

use crate::jobs::jobs_in;
use pl_base::{ExactCopy, List, MarkedNode, MarkedPair, Memory, Place, Text};
use pl_schema_parts::{
    Names, SchemaCode, SchemaFault, StageSpec, at_key, at_node, behaviour_in, condition_in,
    depends_in, has, items_in, name_in, no_names, pairs_in, pool_in, take, variables_in,
};
use std::alloc::Global;

/// The stages of a pipeline, of which there must be one.
#[tactic(auto, unfolding(crate::specs::Stages::stages_in))]
pub fn stages_in(alloc: Global, node: &MarkedNode) -> Result<List<StageSpec>, SchemaFault>
    ensures { Gives result (spec.stages_in node.now) }
{
    let items = items_in(alloc, node)?;
    if items.is_empty() {
        return Err(at_node(alloc, SchemaCode::MissingKey, node));
    }
    stages_of(alloc, items)
}

fn stages_of(alloc: Global, items: &[MarkedNode]) -> Result<List<StageSpec>, SchemaFault>
    ensures { Gives result (in_turn
        (λ stages item. spec.stage_in (is_taken (spec.stage_names stages)) item) [] items.now) }
{
    let mut names = no_names(alloc);
    let mut stages = List::new(alloc);
    for item in items {
        let stage = stage_in(alloc, &names, item)?;
        take(alloc, &mut names, &stage.name)?;
        stages.push(stage)?;
    }
    Ok(stages)
}

/// A stage before its first key.
pub fn new_stage(alloc: Global, place: &Place) -> Result<StageSpec, Memory>
    ensures { IfOk result (λ stage. stage ≡ spec.new_stage place.now) }
{
    let place = place.copy(alloc)?;
    Ok(StageSpec {
        name: Text::new(alloc),
        place,
        depends: None,
        condition: None,
        variables: List::new(alloc),
        groups: List::new(alloc),
        pool: None,
        behaviour: None,
        jobs: List::new(alloc),
    })
}

/// A stage, which must begin with `stage` and have its jobs.
#[tactic(auto, unfolding(crate::specs::Stages::stage_in))]
fn stage_in(alloc: Global, names: &Names, node: &MarkedNode) -> Result<StageSpec, SchemaFault>
    ensures { Gives result (spec.stage_in (taken names.now) node.now) }
{
    let pairs = pairs_in(alloc, node)?;
    let [first, ..] = pairs else {
        return Err(at_node(alloc, SchemaCode::FirstKey, node));
    };
    if first.key.as_str() != "stage" {
        return Err(at_node(alloc, SchemaCode::FirstKey, node));
    }
    stage_of(alloc, names, node, pairs)
}

#[tactic(auto, unfolding(crate::specs::Stages::stage_of))]
fn stage_of(
    alloc: Global,
    names: &Names,
    node: &MarkedNode,
    pairs: &[MarkedPair],
) -> Result<StageSpec, SchemaFault>
    ensures { Gives result (spec.stage_of (taken names.now) node.now pairs.now) }
{
    if !has(pairs, "jobs") {
        return Err(at_node(alloc, SchemaCode::MissingKey, node));
    }
    let mut stage = new_stage(alloc, &node.origin.source)?;
    read_stage(alloc, names, &mut stage, pairs)?;
    Ok(stage)
}

fn read_stage(
    alloc: Global,
    names: &Names,
    stage: &mut StageSpec,
    pairs: &[MarkedPair],
) -> Result<(), SchemaFault>
    ensures { Makes result stage.new (in_order (read_pair (spec.stage_row (taken names.now)))
        stage.old pairs.now) }
{
    for pair in pairs {
        stage_pair(alloc, names, stage, pair)?;
    }
    Ok(())
}

/// What a pair makes of a stage.
fn stage_pair(
    alloc: Global,
    names: &Names,
    stage: &mut StageSpec,
    pair: &MarkedPair,
) -> Result<(), SchemaFault>
    ensures { Makes result stage.new (read_pair (spec.stage_row (taken names.now)) stage.old
        pair.now) }
{
    let node = &pair.item;
    match pair.key.as_str() {
        "stage" => stage.name = name_in(alloc, names, node)?,
        "jobs" => stage.jobs = jobs_in(alloc, node)?,
        "dependsOn" => stage.depends = Some(depends_in(alloc, node)?),
        "condition" => stage.condition = Some(condition_in(alloc, node)?),
        "variables" => {
            let read = variables_in(alloc, node)?;
            stage.variables = read.variables;
            stage.groups = read.groups;
        }
        "pool" => stage.pool = Some(pool_in(alloc, node)?),
        "lockBehavior" => stage.behaviour = Some(behaviour_in(alloc, node)?),
        "displayName" | "templateContext" => {}
        _ => return Err(at_key(alloc, SchemaCode::UnknownKey, pair)),
    }
    Ok(())
}
