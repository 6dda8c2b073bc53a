//! Rows and changes once more, in memory of their own.

ghost use Rattle.std.specs.Prelude.{◌≡◌, IfOk};

use pl_base::{Bytes, Change, List, Memory, Row};
use std::alloc::Global;

/// The same changes once more.
pub(crate) fn change_copies(alloc: Global, changes: &[Change]) -> Result<Vec<Change>, Memory>
    ensures { IfOk result (λ copies. copies.items ≡ changes.now) }
{
    let mut copies = Vec::with_capacity(alloc, changes.len())?;
    for change in changes {
        copies.push(change_copy(alloc, change)?)?;
    }
    Ok(copies)
}

/// The same change once more.
fn change_copy(alloc: Global, change: &Change) -> Result<Change, Memory>
    ensures { IfOk result (λ copy. copy ≡ change.now) }
{
    let key = List::from_slice(alloc, change.key.as_slice())?;
    let body = body_copy(alloc, &change.body)?;
    Ok(Change {
        table: change.table,
        key,
        body,
    })
}

/// The same body once more, if there is one.
fn body_copy(alloc: Global, body: &Option<Bytes>) -> Result<Option<Bytes>, Memory>
    ensures { IfOk result (λ copy. copy ≡ body.now) }
{
    match body {
        Some(body) => Ok(Some(List::from_slice(alloc, body.as_slice())?)),
        None => Ok(None),
    }
}

/// The same rows once more.
pub(crate) fn row_copies(alloc: Global, rows: &[Row]) -> Result<List<Row>, Memory>
    ensures { IfOk result (λ copies. copies ≡ rows.now) }
{
    let mut copies = Vec::with_capacity(alloc, rows.len())?;
    for row in rows {
        copies.push(row_copy(alloc, row)?)?;
    }
    Ok(List::from_vec(copies))
}

/// The same row once more.
fn row_copy(alloc: Global, row: &Row) -> Result<Row, Memory>
    ensures { IfOk result (λ copy. copy ≡ row.now) }
{
    let key = List::from_slice(alloc, row.key.as_slice())?;
    let body = List::from_slice(alloc, row.body.as_slice())?;
    Ok(Row {
        table: row.table,
        key,
        body,
    })
}
