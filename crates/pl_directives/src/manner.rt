use pl_base::Place;

/// What a collection may be.
#[derive(Clone, Copy, Debug, PartialEq, Eq)]
pub enum Kind {
    /// Its directives tell.
    Unknown,
    Items,
    Pairs,
}

/// How a mapping stands in its sequence, by its keys.
#[derive(Drop)]
pub enum Manner {
    /// It has no keys.
    Empty,
    /// It has a key of its own, so it is an item.
    Stays,
    /// Its keys are directives: what they put in its place may be nothing.
    Splices(Kind),
    /// Its keys are directives with values of both kinds. The first of the other kind stands there.
    Mixed(Place),
    /// An expression in a key of it has no end, so that isn't told. The first such key stands
    /// there.
    Unclosed(Place),
}
