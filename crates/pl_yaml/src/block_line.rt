use pl_line::Characters;

/// A line of a block scalar: how many spaces its content begins with, the characters behind them,
/// and whether a break follows.
#[derive(Clone, Copy)]
pub(crate) struct BlockLine<'t> {
    pub(crate) spaces: u32,
    pub(crate) text: Characters<'t>,
    pub(crate) broken: bool,
}
