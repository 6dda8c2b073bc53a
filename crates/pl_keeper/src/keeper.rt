ghost use Rattle.std.specs.Prelude.{◌≡◌, ℕ, List, Option, OnOk, OnErr, IfOk, IfSome, IsErrOf};
ghost use Rattle.pl_base.specs.Counts.{one_more};
ghost use Rattle.pl_base.specs.declared.row.Row.{Row as Kept};
ghost use Rattle.pl_keeper.specs.Keeping.{all_changed, IsInOrder, WhereTold};

use crate::fault::KeeperFault;
use pl_base::{Change, List, Row};
use std::alloc::Global;

/// Who keeps rows.
///
/// A keeper may stop telling its rows in any call, as one does whose outside was shut by a fault:
/// from then on nothing is said of them. None begins to tell them again.
pub trait Keeper {
    /// The rows that it keeps, in order of table and key, where the keeper tells them.
    ghost held: { Self → Option (List Kept) };

    /// How many calls failed. It never falls.
    ghost faults: { Self → ℕ };

    /// Makes all changes, in order, or none. Where the rows are told after the call, they have all
    /// changes after Ok, and are as before after a fault.
    fn apply(&mut self, alloc: Global, changes: &List<Change>) -> Result<(), KeeperFault>
        ensures applied { OnOk result (WhereTold (held self.old) (held self.new)
            (λ before after. after ≡ all_changed changes.now before)) }
        ensures kept { OnErr result (WhereTold (held self.old) (held self.new)
            (λ before after. after ≡ before)) }
        ensures quiet { OnOk result (faults self.new ≡ faults self.old) }
        ensures failed { IsErrOf result KeeperFault.Failed →
            faults self.new ≡ one_more (faults self.old) }
        ensures memory { IsErrOf result KeeperFault.Memory → faults self.new ≡ faults self.old };

    /// The rows, in order of table and key. Where they are told after the call, these are they, and
    /// they are as before.
    fn rows(&mut self, alloc: Global) -> Result<List<Row>, KeeperFault>
        ensures told { IfOk result (λ rows. IfSome (held self.new) (λ held. rows ≡ held)) }
        ensures ordered { IfOk result IsInOrder }
        ensures kept { WhereTold (held self.old) (held self.new)
            (λ before after. after ≡ before) }
        ensures quiet { OnOk result (faults self.new ≡ faults self.old) }
        ensures failed { IsErrOf result KeeperFault.Failed →
            faults self.new ≡ one_more (faults self.old) }
        ensures memory { IsErrOf result KeeperFault.Memory → faults self.new ≡ faults self.old };

    /// How many calls failed.
    fn faults(&self) -> u64
        ensures { result ≡ faults self.now };
}
