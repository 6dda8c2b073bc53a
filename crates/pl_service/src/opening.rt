//! How a service begins.

ghost use Rattle.std.specs.Prelude.{◌≡◌, IfErr, IfOk, OnOk};
ghost use Rattle.pl_keeper.specs.Keeping.{WhereTold};
ghost use Rattle.pl_service.specs.Begun.{Fails, IsBegun};
ghost use Rattle.pl_service.specs.Past.{past_at};
ghost use Rattle.pl_service.specs.Rows.{AreSame};

use crate::fault::OpenFault;
use pl_base::Digest;
use pl_keeper::Keeper;
use pl_opening::{Core, open};
use std::alloc::Global;

/// Why a service isn't opened, and its keeper.
#[derive(Debug, Drop)]
pub struct Unopened<K> {
    pub fault: OpenFault,
    pub keeper: K,
}

/// A service that goes on from what a keeper has kept.
pub(crate) fn begun<K: Keeper>(
    alloc: Global,
    keeper: &mut K,
    admin: Digest,
) -> Result<Core, OpenFault>
    ensures begun { IfOk result (λ core. IsBegun admin (K.held keeper.new) (past_at core)) }
    ensures quiet { OnOk result (K.faults keeper.new ≡ K.faults keeper.old) }
    ensures rows { WhereTold (K.held keeper.old) (K.held keeper.new) AreSame }
    ensures fails { IfErr result (Fails admin (K.held keeper.new) (K.faults keeper.old)
        (K.faults keeper.new)) }
{
    let rows = keeper.rows(alloc)?;
    Ok(open(alloc, admin, rows.as_slice())?)
}
