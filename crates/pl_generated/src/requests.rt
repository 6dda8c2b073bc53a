ghost use Rattle.std.specs.Prelude.{◌≡◌, ◌∷◌, [], true, IfOk};
ghost use Rattle.pl_generated.specs.Input.{exclusive_pool, input, text};
ghost use Rattle.pl_requests.specs.WellFormed.{is_request};
ghost use Rattle.pl_requests.specs.declared.request.Request.TheVariants.{QueueText};

use crate::texts::text;
use pl_base::{Bytes, Kind, List, Memory, ResourceKey, Shared, Text};
use pl_requests::{Request, ResourceSetting};
use std::alloc::Global;

/// The request with which the input begins: every pipeline may use the pool `Default`, one stage at
/// a time. Memory where memory is wanting.
pub fn first_request(alloc: Global) -> Result<Request, Memory>
    ensures request { IfOk result (λ request. request ∷ [] ≡ input 0) }
    ensures well_formed { IfOk result (λ request. is_request request ≡ true) }
{
    let setting = Shared::new(alloc, exclusive_pool(alloc)?)?;
    Ok(Request::SetResource(setting))
}

fn exclusive_pool(alloc: Global) -> Result<ResourceSetting, Memory>
    ensures { IfOk result (λ setting. setting ≡ exclusive_pool) }
{
    let name = Text::from_str(alloc, "Default")?;
    Ok(ResourceSetting {
        key: ResourceKey {
            kind: Kind::Pool,
            name,
        },
        pipelines: None,
        exclusive: true,
        checks: List::new(alloc),
    })
}

/// The request that queues a run of the text of this number, which is counted from 1. Memory where
/// memory is wanting.
pub fn next_request(alloc: Global, number: u64) -> Result<Request, Memory>
    ensures request { IfOk result (λ request. request ≡ QueueText (text number)) }
    ensures well_formed { IfOk result (λ request. is_request request ≡ true) }
{
    let text = text(alloc, number)?;
    let bytes = Bytes::from_slice(alloc, text.as_bytes())?;
    Ok(Request::QueueText(Shared::new(alloc, bytes)?))
}
