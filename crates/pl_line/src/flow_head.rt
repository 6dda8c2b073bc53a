/// What begins at a place of a flow collection where an entry, a key or a value can begin (YAML
/// 1.2.2, sections 5.3, 7.3.3 and 7.4).
#[derive(Clone, Copy)]
pub(crate) enum FlowHead {
    /// `[` or `{`.
    Collection,
    /// A single or a double quote.
    Quote,
    /// A plain scalar of so many characters, blanks behind it counted.
    Plain(usize),
    /// `?` before a blank or the line's end.
    Question,
    /// `&` or `*`.
    Anchor,
    /// `!`.
    Tag,
    /// What begins no node.
    Stray,
    /// The end of what can be read of the line.
    End,
}
