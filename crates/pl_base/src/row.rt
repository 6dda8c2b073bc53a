use crate::list::Bytes;

/// A kept row: its table, its key in that table, and its body.
#[derive(Debug, Drop, PartialEq, Eq)]
pub struct Row {
    pub table: u8,
    pub key: Bytes,
    pub body: Bytes,
}

/// A change of one kept row: its new body, or None where the row goes.
#[derive(Debug, Drop, PartialEq, Eq)]
pub struct Change {
    pub table: u8,
    pub key: Bytes,
    pub body: Option<Bytes>,
}
