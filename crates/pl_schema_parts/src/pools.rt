ghost use Rattle.std.specs.Prelude.{◌≡◌, []};
ghost use Rattle.pl_schema_parts.specs.Gives.{Gives, Makes};
ghost use Rattle.pl_schema_parts.specs.Rows.{read_pair, in_order};
ghost use Rattle.pl_schema_parts.specs.Pools.{no_pool, pool_row, pool_in, environment_row};
ghost use Rattle.pl_schema_parts.specs.Pools.{environment_in};

use crate::fault::{SchemaCode, SchemaFault};
use crate::lists::demands_in;
use crate::pipeline::PoolSpec;
use crate::rows::{at_key, at_node, has};
use crate::scalars::{filled_in, some_text, text_in};
use pl_base::{List, MarkedNode, MarkedPair, Text, Value};
use std::alloc::Global;

/// A pool: a mapping, or its name.
#[tactic(auto, unfolding(crate::specs::Pools::pool_in))]
pub fn pool_in(alloc: Global, node: &MarkedNode) -> Result<PoolSpec, SchemaFault>
    ensures { Gives result (pool_in node.now) }
{
    if let Value::Object(pairs) = &node.value {
        return pool_of(alloc, pairs.as_slice());
    }
    let mut pool = no_pool(alloc);
    pool.name = some_text(text_in(alloc, node)?);
    Ok(pool)
}

fn no_pool(alloc: Global) -> PoolSpec
    ensures { result ≡ no_pool }
{
    PoolSpec {
        name: None,
        demands: List::new(alloc),
        vm_image: None,
    }
}

fn pool_of(alloc: Global, pairs: &[MarkedPair]) -> Result<PoolSpec, SchemaFault>
    ensures { Gives result (in_order (read_pair pool_row) no_pool pairs.now) }
{
    let mut pool = no_pool(alloc);
    for pair in pairs {
        pool_pair(alloc, &mut pool, pair)?;
    }
    Ok(pool)
}

/// What a pair makes of a pool.
fn pool_pair(alloc: Global, pool: &mut PoolSpec, pair: &MarkedPair) -> Result<(), SchemaFault>
    ensures { Makes result pool.new (read_pair pool_row pool.old pair.now) }
{
    match pair.key.as_str() {
        "name" => pool.name = some_text(text_in(alloc, &pair.item)?),
        "demands" => pool.demands = demands_in(alloc, &pair.item)?,
        "vmImage" => pool.vm_image = some_text(text_in(alloc, &pair.item)?),
        _ => return Err(at_key(alloc, SchemaCode::UnknownKey, pair)),
    }
    Ok(())
}

/// An environment's name: under `name` in a mapping, or the scalar itself.
#[tactic(auto, unfolding(crate::specs::Pools::environment_in))]
pub fn environment_in(alloc: Global, node: &MarkedNode) -> Result<Text, SchemaFault>
    ensures { Gives result (environment_in node.now) }
{
    let Value::Object(pairs) = &node.value else {
        return filled_in(alloc, node);
    };
    if !has(pairs.as_slice(), "name") {
        return Err(at_node(alloc, SchemaCode::MissingKey, node));
    }
    environment_of(alloc, pairs.as_slice())
}

fn environment_of(alloc: Global, pairs: &[MarkedPair]) -> Result<Text, SchemaFault>
    ensures { Gives result (in_order (read_pair environment_row) [] pairs.now) }
{
    let mut name = Text::new(alloc);
    for pair in pairs {
        environment_pair(alloc, &mut name, pair)?;
    }
    Ok(name)
}

/// What a pair makes of an environment's name.
fn environment_pair(alloc: Global, name: &mut Text, pair: &MarkedPair) -> Result<(), SchemaFault>
    ensures { Makes result name.new (read_pair environment_row name.old pair.now) }
{
    match pair.key.as_str() {
        "name" => *name = filled_in(alloc, &pair.item)?,
        "resourceName" | "resourceType" | "resourceId" | "tags" => {}
        _ => return Err(at_key(alloc, SchemaCode::UnknownKey, pair)),
    }
    Ok(())
}
