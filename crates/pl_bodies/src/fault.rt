ghost use Rattle.std.specs.Prelude.{◌≡◌};

/// Why a body says nothing.
#[derive(Clone, Copy, Debug, PartialEq, Eq)]
pub enum BodyFault {
    /// It isn't of the form that its route wants: 400 `body.bad`.
    Bad,
    /// Memory is wanting.
    Memory,
}

impl From<pl_base::Memory> for BodyFault {
    ghost use Rattle.pl_bodies.specs.declared.fault.BodyFault.TheVariants.{Memory};

    ghost from_gives = { λ _ e. e ≡ Memory };

    fn from(_refused: pl_base::Memory) -> BodyFault {
        BodyFault::Memory
    }
}
