/// What begins at a place of a line where a node may begin (YAML 1.2.2, sections 5.3 and 7.3.3). A
/// number is how many characters the plain scalar takes there, blanks behind it counted.
#[derive(Clone, Copy, Debug, PartialEq, Eq)]
pub(crate) enum Head {
    /// `-` before a blank or the line's end: an entry of a sequence.
    Dash,
    /// `?` before a blank or the line's end.
    Question,
    /// `&` or `*`.
    Anchor,
    /// `!`.
    Tag,
    /// A plain scalar before a mapping's `:`.
    Key(usize),
    /// A plain scalar before a comment or the end.
    Word(usize),
    /// A quote: a quoted scalar.
    Quote,
    /// `[` or `{`: a flow collection.
    Flow,
    /// `|` or `>`: a block scalar.
    Block,
    /// What begins no node.
    Stray,
}
