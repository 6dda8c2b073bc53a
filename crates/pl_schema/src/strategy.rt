ghost use Rattle.std.specs.Prelude.{[], codes};
ghost use Rattle.pl_schema_parts.specs.Gives.{Gives};
ghost use Rattle.pl_schema_parts.specs.Rows.{read_pair, in_order};
ghost use Rattle.pl_schema_parts.specs.Steps.{steps_in};
ghost use Rattle.pl_schema.specs.Jobs.{held_row, deploy_in, run_once_in, strategy_in};

use pl_base::{List, MarkedNode, MarkedPair};
use pl_schema_parts::{
    SchemaCode, SchemaFault, StepSpec, at_key, at_node, has, pairs_in, steps_in,
};
use std::alloc::Global;

/// The steps of a deployment, under `runOnce`, `deploy` and `steps` of its strategy.
#[tactic(auto, unfolding(crate::specs::Jobs::strategy_in))]
pub fn strategy_in(alloc: Global, node: &MarkedNode) -> Result<List<StepSpec>, SchemaFault>
    ensures { Gives result (strategy_in node.now) }
{
    let pairs = pairs_in(alloc, node)?;
    if !has(pairs, "runOnce") {
        return Err(at_node(alloc, SchemaCode::MissingKey, node));
    }
    strategy_of(alloc, pairs)
}

fn strategy_of(alloc: Global, pairs: &[MarkedPair]) -> Result<List<StepSpec>, SchemaFault>
    ensures { Gives result
        (in_order (read_pair (held_row (codes "runOnce") run_once_in)) [] pairs.now) }
{
    let mut steps = List::new(alloc);
    for pair in pairs {
        if pair.key.as_str() != "runOnce" {
            return Err(at_key(alloc, SchemaCode::UnknownKey, pair));
        }
        steps = run_once_in(alloc, &pair.item)?;
    }
    Ok(steps)
}

#[tactic(auto, unfolding(crate::specs::Jobs::run_once_in))]
fn run_once_in(alloc: Global, node: &MarkedNode) -> Result<List<StepSpec>, SchemaFault>
    ensures { Gives result (run_once_in node.now) }
{
    let pairs = pairs_in(alloc, node)?;
    if !has(pairs, "deploy") {
        return Err(at_node(alloc, SchemaCode::MissingKey, node));
    }
    run_once_of(alloc, pairs)
}

fn run_once_of(alloc: Global, pairs: &[MarkedPair]) -> Result<List<StepSpec>, SchemaFault>
    ensures { Gives result
        (in_order (read_pair (held_row (codes "deploy") deploy_in)) [] pairs.now) }
{
    let mut steps = List::new(alloc);
    for pair in pairs {
        if pair.key.as_str() != "deploy" {
            return Err(at_key(alloc, SchemaCode::UnknownKey, pair));
        }
        steps = deploy_in(alloc, &pair.item)?;
    }
    Ok(steps)
}

#[tactic(auto, unfolding(crate::specs::Jobs::deploy_in))]
fn deploy_in(alloc: Global, node: &MarkedNode) -> Result<List<StepSpec>, SchemaFault>
    ensures { Gives result (deploy_in node.now) }
{
    let pairs = pairs_in(alloc, node)?;
    if !has(pairs, "steps") {
        return Err(at_node(alloc, SchemaCode::MissingKey, node));
    }
    deploy_of(alloc, pairs)
}

fn deploy_of(alloc: Global, pairs: &[MarkedPair]) -> Result<List<StepSpec>, SchemaFault>
    ensures { Gives result
        (in_order (read_pair (held_row (codes "steps") steps_in)) [] pairs.now) }
{
    let mut steps = List::new(alloc);
    for pair in pairs {
        if pair.key.as_str() != "steps" {
            return Err(at_key(alloc, SchemaCode::UnknownKey, pair));
        }
        steps = steps_in(alloc, &pair.item)?;
    }
    Ok(steps)
}
