use pl_base::{Memory, Refusal};

/// Why a pipeline doesn't compile.
#[derive(Debug, Drop, PartialEq, Eq)]
pub enum CompileFault {
    /// The first thing that is wrong with it.
    Refused(Refusal),
    /// Memory was wanting.
    Memory,
}

impl From<Memory> for CompileFault {
    ghost use Rattle.std.specs.Prelude.{◌≡◌};
    ghost use Rattle.pl_compile.specs.declared.fault.CompileFault.TheVariants.{Memory};

    ghost from_gives = { λ _ fault. fault ≡ Memory };

    fn from(_memory: Memory) -> CompileFault {
        CompileFault::Memory
    }
}
