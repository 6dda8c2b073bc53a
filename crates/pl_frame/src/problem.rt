use pl_base::Memory;
use pl_eval::EvalCode;
use pl_expr::ExprCode;

/// Why an expression's text has no value.
#[derive(Clone, Copy, Debug, PartialEq, Eq)]
pub enum ExpressionProblem {
    /// The text is no expression of templates.
    Unparsed(ExprCode),
    /// The expression has no value.
    Undefined(EvalCode),
}

/// Why a call gives no value of an expression.
#[derive(Clone, Copy, Debug, PartialEq, Eq)]
pub enum ExpressionFault {
    Refused(ExpressionProblem),
    /// Memory was wanting.
    Memory,
}

impl From<Memory> for ExpressionFault {
    ghost use Rattle.std.specs.Prelude.{◌≡◌};
    ghost use Rattle.pl_frame.specs.declared.problem.ExpressionFault.TheVariants.{Memory};

    ghost from_gives = { λ _ fault. fault ≡ Memory };

    fn from(_refused: Memory) -> ExpressionFault {
        ExpressionFault::Memory
    }
}
