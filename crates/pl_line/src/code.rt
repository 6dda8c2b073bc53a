use thiserror::Error;

/// Why a text isn't in the profile of YAML 1.2.2 that this project reads.
#[derive(Clone, Copy, Debug, Error, PartialEq, Eq)]
pub enum YamlCode {
    /// Y1: bytes that aren't UTF-8, at line 1, column 1.
    #[error("Y1: not UTF-8")]
    NotUtf8,
    /// Y2: a tab among the leading blanks of a line with content, at the line's first tab.
    #[error("Y2: a tab in the indentation")]
    TabIndent,
    /// Y3: a node that begins with `&` or `*`.
    #[error("Y3: an anchor or an alias")]
    Anchor,
    /// Y4: a node that begins with `!`.
    #[error("Y4: a tag")]
    Tag,
    /// Y5: `? `, or a collection as a key.
    #[error("Y5: a complex key")]
    ComplexKey,
    /// Y6: a marker of documents, at column 1.
    #[error("Y6: a marker of documents")]
    Documents,
    /// Y7: a line whose indentation fits nothing that is being read, at its first character that
    /// isn't a space.
    #[error("Y7: an indentation that fits nothing above")]
    BadIndent,
    /// Y8: a quoted scalar or a flow collection that isn't closed on its line, at the line's end.
    #[error("Y8: not closed on this line")]
    Unclosed,
    /// Y9: an escape that isn't listed, at its backslash.
    #[error("Y9: an unknown escape")]
    BadEscape,
    /// Y10: a key that stands twice in a mapping, at the second.
    #[error("Y10: a key that stands twice")]
    DuplicateKey,
    /// Y11: a collection with which more than 64 are open, where it begins.
    #[error("Y11: more than 64 collections in one another")]
    TooDeep,
    /// Y12: more than 262,144 bytes, at line 1, column 1.
    #[error("Y12: more than 262144 bytes")]
    TooLarge,
    /// Y13: anything else that can't stand where it does.
    #[error("Y13: text that can't stand here")]
    NoEntry,
}
