ghost use Rattle.std.specs.Prelude.{◌≡◌};
ghost use Rattle.pl_eval.specs.Means.{manner_of};

use pl_expr::Function;

/// How a call looks at its arguments.
#[derive(Clone, Copy, Debug, PartialEq, Eq)]
pub enum Manner {
    /// At the first, and at the one that it chooses.
    Choosing,
    /// Up to the first that doesn't count as true.
    All,
    /// Up to the first that counts as true.
    Any,
    /// Up to the first that is neither Null nor the empty text.
    First,
    /// At the first, and on up to one to which it is equal.
    Among,
    /// The same, with the contrary answer.
    NotAmong,
    /// At all, as names of dependencies.
    Status,
    /// At all, whose values it takes.
    Strict(Operation),
}

/// What a call makes of the values of all its arguments.
#[derive(Clone, Copy, Debug, PartialEq, Eq)]
pub enum Operation {
    /// What the function makes of one value.
    One(UnaryFunction),
    /// What the function makes of two.
    Two(BinaryFunction),
    /// The first with the third in the place of the second.
    Replace,
    /// The first with the others in its holes.
    Format,
}

/// The functions of one value.
#[derive(Clone, Copy, Debug, PartialEq, Eq)]
pub enum UnaryFunction {
    Not,
    Length,
    Lower,
    Upper,
    Trim,
}

/// The functions of two values.
#[derive(Clone, Copy, Debug, PartialEq, Eq)]
pub enum BinaryFunction {
    Xor,
    Eq,
    Ne,
    Lt,
    Le,
    Gt,
    Ge,
    Contains,
    StartsWith,
    EndsWith,
    ContainsValue,
    Join,
    Split,
}

/// How a call of the function looks at its arguments.
pub fn manner_of(function: Function) -> Manner
    ensures { result ≡ manner_of function }
{
    match function {
        Function::Iif => Manner::Choosing,
        Function::And => Manner::All,
        Function::Or => Manner::Any,
        Function::Coalesce => Manner::First,
        Function::In => Manner::Among,
        Function::NotIn => Manner::NotAmong,
        Function::Always
        | Function::Canceled
        | Function::Failed
        | Function::Succeeded
        | Function::SucceededOrFailed => Manner::Status,
        Function::Not => Manner::Strict(Operation::One(UnaryFunction::Not)),
        Function::Length => Manner::Strict(Operation::One(UnaryFunction::Length)),
        Function::Lower => Manner::Strict(Operation::One(UnaryFunction::Lower)),
        Function::Upper => Manner::Strict(Operation::One(UnaryFunction::Upper)),
        Function::Trim => Manner::Strict(Operation::One(UnaryFunction::Trim)),
        Function::Xor => Manner::Strict(Operation::Two(BinaryFunction::Xor)),
        Function::Eq => Manner::Strict(Operation::Two(BinaryFunction::Eq)),
        Function::Ne => Manner::Strict(Operation::Two(BinaryFunction::Ne)),
        Function::Lt => Manner::Strict(Operation::Two(BinaryFunction::Lt)),
        Function::Le => Manner::Strict(Operation::Two(BinaryFunction::Le)),
        Function::Gt => Manner::Strict(Operation::Two(BinaryFunction::Gt)),
        Function::Ge => Manner::Strict(Operation::Two(BinaryFunction::Ge)),
        Function::Contains => Manner::Strict(Operation::Two(BinaryFunction::Contains)),
        Function::StartsWith => Manner::Strict(Operation::Two(BinaryFunction::StartsWith)),
        Function::EndsWith => Manner::Strict(Operation::Two(BinaryFunction::EndsWith)),
        Function::ContainsValue => Manner::Strict(Operation::Two(BinaryFunction::ContainsValue)),
        Function::Join => Manner::Strict(Operation::Two(BinaryFunction::Join)),
        Function::Split => Manner::Strict(Operation::Two(BinaryFunction::Split)),
        Function::Replace => Manner::Strict(Operation::Replace),
        Function::Format => Manner::Strict(Operation::Format),
    }
}
