use crate::fault::ExprCode;
use pl_base::Memory;

/// Why reading stops: a fault, with the count of bytes from its place to the text's end, or want of
/// memory.
#[derive(Clone, Copy, Debug, PartialEq, Eq)]
pub enum Stop {
    Fault(ExprCode, usize),
    Memory,
}

impl From<Memory> for Stop {
    ghost use Rattle.std.specs.Prelude.{◌≡◌};
    ghost use Rattle.pl_expr.specs.declared.stop.Stop.TheVariants.{Memory};

    ghost from_gives = { λ _ stop. stop ≡ Memory };

    fn from(_memory: Memory) -> Stop {
        Stop::Memory
    }
}
