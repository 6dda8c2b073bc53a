ghost use Rattle.std.specs.Prelude.{◌≡◌};
ghost use Rattle.pl_keeper.specs.declared.fault.KeeperFault.TheVariants.{Memory as OutOfMemory};

use pl_base::Memory;
use std::alloc::AllocError;

/// Why a keeper's call failed.
#[derive(Clone, Copy, Debug, PartialEq, Eq)]
pub enum KeeperFault {
    /// The outside failed. It comes only where the keeper's count of faults rose.
    Failed,
    /// There was no memory.
    Memory,
}

impl From<Memory> for KeeperFault {
    ghost from_gives = { λ _ fault. fault ≡ OutOfMemory };

    fn from(_refused: Memory) -> KeeperFault {
        KeeperFault::Memory
    }
}

impl From<AllocError> for KeeperFault {
    ghost from_gives = { λ _ fault. fault ≡ OutOfMemory };

    fn from(_refused: AllocError) -> KeeperFault {
        KeeperFault::Memory
    }
}
