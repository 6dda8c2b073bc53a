//! The row at one place.

ghost use Rattle.std.specs.Prelude.{◌≡◌, ◌++◌, ◌∷◌, [], OnOk};
ghost use Rattle.pl_row_changes.specs.Below.pl_spots.specs.Spots.{seen};
ghost use Rattle.pl_touched.specs.Touched.{rows_at, FitAt};

use pl_base::{Memory, Row};
use pl_journal::Journal;
use pl_row_changes::{Spot, row_at};
use std::alloc::Global;

/// Puts the row at a place behind the others, if one stands there.
pub(crate) fn push_at(
    alloc: Global,
    journal: &Journal,
    rows: &mut Vec<Row>,
    place: Spot<'_>,
) -> Result<(), Memory>
    ensures rows { OnOk result (rows.new.items ≡ rows.old.items ++
        rows_at (seen place.entry ∷ []) journal.now.facts) }
    ensures fits { OnOk result (FitAt (seen place.entry ∷ []) journal.now.facts) }
{
    match row_at(alloc, journal, place)? {
        Some(row) => Ok(rows.push(row)?),
        None => Ok(()),
    }
}
