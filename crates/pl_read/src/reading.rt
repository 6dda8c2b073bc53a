ghost use Rattle.std.specs.Prelude.{IfOk};
ghost use Rattle.std.specs.List.{AllZip};
ghost use Rattle.pl_read.specs.Reading.{IsRead};

use pl_base::{Memory, Row};
use pl_keeper::{DecodeFault, Record, decode};
use std::alloc::Global;

/// What each row keeps, in order: its record, or None where it is no record's that is within the
/// limits. Each row is read once, whatever stands in the others. Memory where memory is wanting.
pub fn read_rows(alloc: Global, rows: &[Row]) -> Result<Vec<Option<Record>>, Memory>
    ensures { IfOk result (λ read. AllZip IsRead rows.now read.items) }
{
    let mut read = Vec::with_capacity(alloc, rows.len())?;
    for row in rows {
        read.push(read_row(alloc, row)?)?;
    }
    Ok(read)
}

/// What a row keeps.
pub fn read_row(alloc: Global, row: &Row) -> Result<Option<Record>, Memory>
    ensures { IfOk result (IsRead row.now) }
{
    match decode(alloc, row) {
        Ok(kept) => Ok(Some(kept)),
        Err(DecodeFault::Torn) => Ok(None),
        Err(DecodeFault::Memory) => Err(Memory),
    }
}
