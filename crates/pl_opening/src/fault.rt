ghost use Rattle.std.specs.Prelude.{◌≡◌};
ghost use Rattle.pl_opening.specs.declared.fault.RowsFault.TheVariants.{Memory as OutOfMemory};

use pl_base::{Bytes, Memory};

/// Why a service can't be opened.
#[derive(Debug, Drop)]
pub enum RowsFault {
    /// The first row that is torn, with its body.
    Torn { table: u8, key: Bytes, bytes: Bytes },
    /// There was no memory.
    Memory,
}

impl From<Memory> for RowsFault {
    ghost from_gives = { λ _ fault. fault ≡ OutOfMemory };

    fn from(_refused: Memory) -> RowsFault {
        RowsFault::Memory
    }
}
