ghost use Rattle.std.specs.Prelude.{◌≡◌};
ghost use Rattle.pl_listener.specs.declared.fault.ListenFault.TheVariants.{Memory as OutOfMemory};

use pl_base::Memory;
use std::alloc::AllocError;

/// Why a listener's call failed.
#[derive(Clone, Copy, Debug, PartialEq, Eq)]
pub enum ListenFault {
    /// The outside failed. It comes only where the handle's count of faults rose.
    Failed,
    /// There was no memory.
    Memory,
}

impl From<Memory> for ListenFault {
    ghost from_gives = { λ _ fault. fault ≡ OutOfMemory };

    fn from(_refused: Memory) -> ListenFault {
        ListenFault::Memory
    }
}

impl From<AllocError> for ListenFault {
    ghost from_gives = { λ _ fault. fault ≡ OutOfMemory };

    fn from(_refused: AllocError) -> ListenFault {
        ListenFault::Memory
    }
}
