use pl_base::{List, MarkedNode, MarkedPair, Value};

/// What a call gives in its item's place, and the count behind it.
#[derive(Drop)]
pub struct Followed {
    pub items: List<MarkedNode>,
    pub count: u32,
}

/// A value in which calls were followed, and the count behind it.
#[derive(Drop)]
pub struct SettledValue {
    pub value: Value,
    pub count: u32,
}

/// Pairs in which calls were followed, and the count behind them.
#[derive(Drop)]
pub struct SettledPairs {
    pub pairs: List<MarkedPair>,
    pub count: u32,
}
