ghost use Rattle.std.specs.Prelude.{◌≡◌, IfOk};
ghost use Rattle.pl_claims.specs.Claims as spec;

use pl_base::{ExactCopy, Memory, ResourceKey, Text};
use pl_locks::Contender;
use std::alloc::Global;

/// What stages of one name in runs of one pipeline have in common that want one resource.
#[derive(Drop, PartialEq, Eq, PartialOrd, Ord)]
pub(crate) struct Claim {
    pub(crate) pipeline: Text,
    pub(crate) name: Text,
    pub(crate) resource: ResourceKey,
}

/// A stage's claim on a resource.
pub(crate) fn claim_of(alloc: Global, stage: &Contender, key: &ResourceKey) -> Result<Claim, Memory>
    ensures { IfOk result (λ claim. claim ≡ spec.claim_of stage.now key.now) }
{
    let pipeline = stage.pipeline.copy(alloc)?;
    let name = stage.name.copy(alloc)?;
    let resource = key.copy(alloc)?;
    Ok(Claim {
        pipeline,
        name,
        resource,
    })
}
