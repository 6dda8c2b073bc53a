ghost use Rattle.std.specs.Prelude.{IfOk};
ghost use Rattle.pl_seeing.specs.Seeing.{AreSeen};

use crate::sharing::{Made, made_by};
use pl_base::{Memory, Row};
use pl_read::read_row;
use pl_torn::Seen;
use std::alloc::Global;

/// What is seen of rows, of each in order: what it is read as, or None where it is no record's that
/// is within the limits, and of a run's row the compile of its sources, or None where they don't
/// compile to a plan of these same sources. Each row is read once, and sources that runs share are
/// compiled once. Memory where memory is wanting.
pub fn seen_rows<'r>(alloc: Global, rows: &'r [Row]) -> Result<Vec<Seen<'r>>, Memory>
    ensures { IfOk result (λ all. AreSeen rows.now all.items) }
{
    let mut all = Vec::with_capacity(alloc, rows.len())?;
    let mut made = Made::new(alloc);
    for row in rows {
        let kept = read_row(alloc, row)?;
        let compiled = made_by(alloc, &mut made, &kept)?;
        all.push(Seen {
            row,
            kept,
            compiled,
        })?;
    }
    Ok(all)
}
