ghost use Rattle.std.specs.Prelude.{◌≡◌, ◌++◌, map, IfOk, OnOk};
ghost use Rattle.std.specs.Option.{option_or};
ghost use Rattle.pl_uses.specs.Pools as spec;

use crate::demand::Demand;
use pl_base::{ExactCopy, List, Memory, Text};
use pl_schema::{JobSpec, Pipeline, PoolSpec, StageSpec};
use std::alloc::Global;

/// The pool of a stage: its own, else the pipeline's.
fn stage_pool<'p>(pipeline: &'p Pipeline, stage: &'p StageSpec) -> &'p Option<PoolSpec>
    ensures { result.now ≡ option_or stage.now.pool pipeline.now.pool }
{
    match &stage.pool {
        Some(_) => &stage.pool,
        None => &pipeline.pool,
    }
}

/// The pool of a job: its own, else its stage's.
pub fn pool_of<'p>(
    pipeline: &'p Pipeline,
    stage: &'p StageSpec,
    job: &'p JobSpec,
) -> &'p Option<PoolSpec>
    ensures { result.now ≡ spec.pool_of pipeline.now stage.now job.now }
{
    match &job.pool {
        Some(_) => &job.pool,
        None => stage_pool(pipeline, stage),
    }
}

/// A pool's name, which is `Default` where none is written.
pub fn pool_name(alloc: Global, pool: &Option<PoolSpec>) -> Result<Text, Memory>
    ensures { IfOk result (λ name. name ≡ spec.pool_name pool.now) }
{
    match pool {
        Some(
            PoolSpec {
                name: Some(name),
                ..
            },
        ) => name.copy(alloc),
        _ => Text::from_str(alloc, "Default"),
    }
}

fn demand_of_two(alloc: Global, name: &str, value: &str) -> Result<Demand, Memory>
    ensures { IfOk result (λ demand. demand ≡ spec.demand_of_two name.now value.now) }
{
    let name = Text::from_str(alloc, name)?;
    let value = Text::from_str(alloc, value)?;
    Ok(Demand {
        name,
        value: Some(value),
    })
}

/// A demand: `NAME -equals VALUE`, cut at the first ` -equals `, or a name.
fn demand_of(alloc: Global, text: &Text) -> Result<Demand, Memory>
    ensures { IfOk result (λ demand. demand ≡ spec.demand_of text.now) }
{
    match text.as_str().split_once(" -equals ") {
        Some((name, value)) => demand_of_two(alloc, name, value),
        None => {
            let name = text.copy(alloc)?;
            Ok(Demand { name, value: None })
        }
    }
}

fn push_written(alloc: Global, demands: &mut List<Demand>, texts: &[Text]) -> Result<(), Memory>
    ensures { OnOk result (demands.new ≡ demands.old ++ map spec.demand_of texts.now) }
{
    for text in texts {
        demands.push(demand_of(alloc, text)?)?;
    }
    Ok(())
}

/// Puts what a pool without a name asks for by its image behind the other demands.
fn push_image(alloc: Global, demands: &mut List<Demand>, pool: &PoolSpec) -> Result<(), Memory>
    ensures { OnOk result
        (demands.new ≡ demands.old ++ spec.image_demands pool.now.name pool.now.vm_image) }
{
    if pool.name.is_some() {
        return Ok(());
    }
    if let Some(image) = &pool.vm_image {
        demands.push(demand_of_two(alloc, "vmImage", image.as_str())?)?;
    }
    Ok(())
}

/// What a pool asks of an agent.
pub fn demands_of(alloc: Global, pool: &Option<PoolSpec>) -> Result<List<Demand>, Memory>
    ensures { IfOk result (λ demands. demands ≡ spec.demands_of pool.now) }
{
    let mut demands = List::new(alloc);
    if let Some(pool) = pool {
        push_written(alloc, &mut demands, pool.demands.as_slice())?;
        push_image(alloc, &mut demands, pool)?;
    }
    Ok(demands)
}
