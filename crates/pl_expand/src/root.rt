use pl_base::{Expanded, FileKey, List, MarkedNode, NodePair, Place, Shared};
use pl_budgets::Meter;
use pl_frame::Parameter;

/// An expanded root file, and the count of its nodes.
#[derive(Drop)]
pub struct RootTree {
    pub expanded: Expanded,
    pub count: u32,
}

/// A root file's mapping: the file, where the mapping stands, its pairs, what is bound to the
/// parameters that it declares, and what the expansion may still make and do.
#[derive(Drop)]
pub struct RootMapping<'r> {
    pub file: &'r FileKey,
    pub place: &'r Place,
    pub pairs: &'r List<NodePair>,
    pub parameters: &'r Shared<List<Parameter>>,
    pub meter: &'r Meter,
}

/// The node of a root file, the file that it extends, and the count behind them.
#[derive(Drop)]
pub struct RootNode {
    pub node: MarkedNode,
    pub extends: Option<FileKey>,
    pub count: u32,
}
