use crate::progress::Chain;
use pl_base::{List, MarkedNode, Origin, Text};

/// The turns of a loop: a name, and the items that it stands for in them.
#[derive(Drop)]
pub struct Turns {
    pub name: Text,
    pub items: List<MarkedNode>,
}

/// What a key of a mapping asks for.
#[derive(Drop)]
pub enum Action {
    /// A pair of this key, which comes from there.
    Put(Text, Origin),
    /// The value in the pair's place. The chain stands behind it.
    Run(Chain),
    /// Nothing.
    Pass(Chain),
    /// The value in the pair's place once for each turn, from this count on.
    Repeat(Turns, u32),
    /// The value's pairs in the pair's place.
    Insert,
}
