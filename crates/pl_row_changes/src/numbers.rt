//! The row of the service's numbers beside others.

ghost use Rattle.std.specs.Prelude.{◌≡◌, ◌+◌, ◌++◌, IfOk, length};
ghost use Rattle.pl_changes.specs.Differing.{differing};
ghost use Rattle.pl_row_changes.specs.Looking.{numbers};

use pl_base::{Memory, Row};
use pl_changes::differing;
use pl_journal::Journal;
use pl_rows::numbers_row;
use std::alloc::Global;

/// The row of the service's numbers, if there is one.
fn numbers(alloc: Global, journal: &Journal, change: u64) -> Result<Vec<Row>, Memory>
    ensures { IfOk result (λ rows. rows.items ≡ numbers change journal.now) }
{
    let mut rows = Vec::new(alloc);
    match numbers_row(alloc, journal, change)? {
        Some(row) => rows.push(row)?,
        None => {}
    }
    Ok(rows)
}

/// The row of the service's numbers, if there is one, and then these rows. `change` is the number of
/// the next change. Memory where memory is wanting.
pub fn with_numbers(
    alloc: Global,
    journal: &Journal,
    change: u64,
    touched: Vec<Row>,
) -> Result<Vec<Row>, Memory>
    ensures { IfOk result (λ rows. rows.items ≡ numbers change journal.now ++ touched.items) }
{
    let mut rows = numbers(alloc, journal, change)?;
    let mut touched = touched;
    rows.append(&mut touched)?;
    Ok(rows)
}

/// The number of the next change behind those of what differs. Memory also where it is none of 64
/// bits.
pub(crate) fn next_change(
    alloc: Global,
    change: u64,
    before: &[Row],
    behind: &[Row],
) -> Result<u64, Memory>
    ensures { IfOk result (λ next. next ≡ change + length (differing before.now behind.now)) }
{
    let count = differing(alloc, before, behind)?.len() as u64;
    match change.checked_add(count) {
        Some(next) => Ok(next),
        None => Err(Memory),
    }
}
