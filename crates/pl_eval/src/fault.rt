ghost use Rattle.std.specs.Prelude.{◌≡◌};
ghost use Rattle.pl_eval.specs.Gives.{fault_of};

use pl_base::Memory;
use pl_texts::TextFault;

/// What is wrong with an evaluation. Of several faults the first counts, arguments being looked at
/// from left to right before the call in which they stand.
#[derive(Clone, Copy, Debug, PartialEq, Eq)]
pub enum EvalCode {
    /// V1: `lt`, `le`, `gt` or `ge` of values that have no order.
    NotConvertible,
    /// V2: a brace of `format` that doesn't belong, or an index without its argument.
    FormatIndex,
    /// V3: `length` of what is neither a text nor an array.
    NoLength,
    /// V4: a function makes a text of more than 65,536 bytes.
    TextTooLong,
    /// V5: a name that stands for nothing.
    UnknownRoot,
}

/// Why `eval` gives no value.
#[derive(Clone, Copy, Debug, PartialEq, Eq)]
pub enum EvalFault {
    /// The expression has no value.
    Refused(EvalCode),
    /// Memory was wanting.
    Memory,
}

impl From<Memory> for EvalFault {
    ghost use Rattle.std.specs.Prelude.{◌≡◌};
    ghost use Rattle.pl_eval.specs.declared.fault.EvalFault.TheVariants.{Memory};

    ghost from_gives = { λ _ fault. fault ≡ Memory };

    fn from(_memory: Memory) -> EvalFault {
        EvalFault::Memory
    }
}

impl EvalFault {
    /// The fault of a function on texts as that of the call.
    pub(crate) fn of_text(fault: TextFault) -> EvalFault
        ensures { result ≡ fault_of fault }
    {
        match fault {
            TextFault::Index => EvalFault::Refused(EvalCode::FormatIndex),
            TextFault::TooLong => EvalFault::Refused(EvalCode::TextTooLong),
            TextFault::Memory => EvalFault::Memory,
        }
    }
}
