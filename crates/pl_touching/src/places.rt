//! The row at one place.

ghost use Rattle.std.specs.Prelude.{◌∷◌, [], OnOk};
ghost use Rattle.pl_changes.specs.Differing.{Apart, Joins};
ghost use Rattle.pl_spots.specs.Spots.{seen};
ghost use Rattle.pl_touched.specs.Touched.{rows_at, FitAt};

use pl_base::{Memory, Row};
use pl_changes::add_row;
use pl_spots::{Spot, row_at};
use pl_touched::Journal;
use std::alloc::Global;

/// Adds the row at a place, if one stands there.
pub(crate) fn add_at(
    alloc: Global,
    journal: &Journal,
    rows: &mut Vec<Row>,
    place: Spot<'_>,
) -> Result<(), Memory>
    ensures apart { Apart rows.old.items → Apart rows.new.items }
    ensures joins { OnOk result (Joins rows.old.items
        (rows_at (seen place.entry ∷ []) journal.now.facts) rows.new.items) }
    ensures fits { OnOk result (FitAt (seen place.entry ∷ []) journal.now.facts) }
{
    match row_at(alloc, journal, place)? {
        Some(row) => add_row(rows, row),
        None => Ok(()),
    }
}
