//! Rows that stand apart, and one more.

ghost use Rattle.std.specs.Prelude.{◌∷◌, [], OnOk};
ghost use Rattle.pl_changes.specs.Differing.{Apart, Joins};

use crate::looking::have_place;
use pl_base::{Memory, Row};

/// Puts a row behind the others unless one stands at its place: then it is dropped. Rows that stand
/// apart still do, also after Memory.
pub fn add_row(rows: &mut Vec<Row>, row: Row) -> Result<(), Memory>
    ensures apart { Apart rows.old.items → Apart rows.new.items }
    ensures joins { OnOk result (Joins rows.old.items (row ∷ []) rows.new.items) }
{
    if !have_place(rows.as_slice(), &row) {
        rows.push(row)?;
    }
    Ok(())
}
