use thiserror::Error;

/// What is wrong with a text that is no expression. Of several faults the one at the least offset
/// counts, then the one with the smaller number, E1 last.
#[derive(Clone, Copy, Debug, Error, PartialEq, Eq)]
pub enum ExprCode {
    /// E1: a character, or the end, with which no text of the grammar can go on.
    #[error("E1: a character that fits no rule")]
    BadChar,
    /// E2: a string without its closing quote, at the opening one.
    #[error("E2: a string without its end")]
    UnclosedString,
    /// E3: a name before `(` that is no function of this mode, at the name.
    #[error("E3: an unknown function")]
    UnknownFunction,
    /// E4: a wrong number of arguments, at the `,` before one too many, else at the call's `)`.
    #[error("E4: a wrong number of arguments")]
    BadCount,
    /// E5: text behind a whole expression, at the first byte with which no text can go on.
    #[error("E5: text behind the expression")]
    Trailing,
    /// E6: the primary or tail with which the tree gets deeper than 50, at its first byte.
    #[error("E6: too deep")]
    TooDeep,
    /// E7: digits, one dot and digits, at the first byte; or a dot and digits where a primary is
    /// wanted.
    #[error("E7: a decimal fraction")]
    Fraction,
    /// E8: a number outside 64 signed bits, or a version's segment past 2147483647, at the first
    /// byte.
    #[error("E8: a number out of range")]
    NumberRange,
}

/// Why `parse` gives no expression.
#[derive(Clone, Copy, Debug, Error, PartialEq, Eq)]
pub enum ExprFault {
    /// The text is no expression. `at` is the fault's place, in bytes from 0.
    #[error("{code}, at byte {at}")]
    Refused { code: ExprCode, at: u64 },
    /// Memory was wanting.
    #[error("out of memory")]
    Memory,
}
