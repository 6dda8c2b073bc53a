/// Where a value stands: the place of its key or dash, the column of the block that holds it, and
/// whether a sequence may stand at that column.
#[derive(Clone, Copy)]
pub(crate) struct Slot {
    pub(crate) line: u32,
    pub(crate) column: u32,
    pub(crate) parent: u32,
    pub(crate) own: bool,
}
