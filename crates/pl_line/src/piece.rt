/// How a quoted scalar is quoted.
#[derive(Clone, Copy)]
pub(crate) enum Style {
    Single,
    Double,
}

/// What stands next in a quoted scalar.
#[derive(Clone, Copy)]
pub(crate) enum Piece {
    /// A character, and how many characters of the line spell it.
    Character(char, usize),
    /// The closing quote.
    Close,
    /// A backslash that begins no escape.
    BadEscape,
    /// The end of what can be read of the line.
    Open,
}
