ghost use Rattle.std.specs.Prelude.{◌≡◌};
ghost use Rattle.pl_line.specs.declared.line_fault.ReadFault.TheVariants.{Memory};

use crate::code::YamlCode;
use std::alloc::{AllocError, AllocFailed};

/// Why a text isn't read, and where.
#[derive(Clone, Copy)]
pub struct Fault {
    pub code: YamlCode,
    pub line: u32,
    pub column: u32,
}

/// A text that isn't read, or want of memory.
#[derive(Drop)]
pub enum ReadFault {
    Refused(Fault),
    Memory,
}

impl From<pl_base::Memory> for ReadFault {
    ghost from_gives = { λ _ e. e ≡ Memory };

    fn from(_refused: pl_base::Memory) -> ReadFault {
        ReadFault::Memory
    }
}

impl From<AllocError> for ReadFault {
    ghost from_gives = { λ _ e. e ≡ Memory };

    fn from(_refused: AllocError) -> ReadFault {
        ReadFault::Memory
    }
}

impl<T: Drop> From<AllocFailed<T>> for ReadFault {
    ghost from_gives = { λ _ e. e ≡ Memory };

    fn from(_refused: AllocFailed<T>) -> ReadFault {
        ReadFault::Memory
    }
}
