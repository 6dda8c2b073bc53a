ghost use Rattle.std.specs.Prelude.{◌≡◌};
ghost use Rattle.pl_fields.specs.declared.fault.DecodeFault.TheVariants.{Memory as OutOfMemory};

use pl_base::Memory;

/// Why bytes aren't read.
#[derive(Clone, Copy, Debug, PartialEq, Eq)]
pub enum DecodeFault {
    /// They are no value's encoding.
    Torn,
    /// There was no memory for the value.
    Memory,
}

impl From<Memory> for DecodeFault {
    ghost from_gives = { λ _ fault. fault ≡ OutOfMemory };

    fn from(_refused: Memory) -> DecodeFault {
        DecodeFault::Memory
    }
}
