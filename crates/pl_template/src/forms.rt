use pl_base::{List, Text};

/// A piece of a text: characters that stand for themselves, or the text between `${{` and `}}`, as
/// it stands.
#[derive(Drop)]
pub enum Piece {
    Literal(Text),
    Expression(Text),
}

/// How expressions stand in a scalar's text.
#[derive(Drop)]
pub enum ScalarForm {
    /// No `${{` stands in it.
    Plain,
    /// The text is one expression, from `${{` to `}}`: the text between.
    Whole(Text),
    /// The pieces from left to right, of which one is an expression and at least two are there. No
    /// literal is empty or
    /// touches another one.
    Joined(List<Piece>),
    /// An expression has no `}}` outside single quotes.
    Unclosed,
}

/// What a key is.
#[derive(Drop)]
pub enum KeyForm {
    /// No `${{` stands in it.
    Plain,
    /// A key that expressions give: Whole or Joined.
    Computed(ScalarForm),
    /// `${{ if EXPRESSION }}`: the text behind the word and its blanks.
    If(Text),
    /// `${{ elseif EXPRESSION }}`: the text behind the word and its blanks.
    ElseIf(Text),
    /// `${{ else }}`
    Else,
    /// `${{ each NAME in EXPRESSION }}`: the name, and the text behind `in` and its blanks.
    Each(Text, Text),
    /// `${{ insert }}`
    Insert,
    /// A directive out of its form, or an expression without its end.
    Bad,
}
