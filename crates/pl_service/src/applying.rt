//! What the keeper is given.

ghost use Rattle.std.specs.Prelude.{◌≡◌, IsErrOf, OnErr, OnOk};
ghost use Rattle.pl_base.specs.Counts.{one_more};
ghost use Rattle.pl_keeper.specs.Keeping.{WhereTold};
ghost use Rattle.pl_service.specs.Rows.{AreChangedBy, AreSame};

use pl_keeper::{Keeper, KeeperFault};
use pl_opening::Prepared;
use std::alloc::Global;

/// Has the keeper apply what an entry changes, in one call. Where there is no entry, it isn't
/// asked.
pub(crate) fn keep<K: Keeper>(
    alloc: Global,
    keeper: &mut K,
    prepared: &Prepared,
) -> Result<(), KeeperFault>
    ensures applied { OnOk result (WhereTold (K.held keeper.old) (K.held keeper.new)
        (AreChangedBy prepared.now.entry prepared.now.changes)) }
    ensures same { OnErr result (WhereTold (K.held keeper.old) (K.held keeper.new) AreSame) }
    ensures quiet { OnOk result (K.faults keeper.new ≡ K.faults keeper.old) }
    ensures failed { IsErrOf result KeeperFault.Failed →
        K.faults keeper.new ≡ one_more (K.faults keeper.old) }
    ensures memory { IsErrOf result KeeperFault.Memory →
        K.faults keeper.new ≡ K.faults keeper.old }
{
    match prepared.entry {
        Some(_) => keeper.apply(alloc, &prepared.changes),
        None => Ok(()),
    }
}
