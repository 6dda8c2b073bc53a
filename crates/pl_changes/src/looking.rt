//! The row at a place.

ghost use Rattle.std.specs.Prelude.{◌≡◌};
ghost use Rattle.std.specs.Option.{option_copied};
ghost use Rattle.std.specs.Ordering.{is_eq};
ghost use Rattle.pl_keeper.specs.Keeping.{place, place_cmp, row_cmp};
ghost use Rattle.pl_changes.specs.Differing.{have_place, have_row, row_in};

use pl_base::Row;

/// Whether two rows stand at one place.
fn is_there(row: &Row, other: &Row) -> bool
    ensures { result ≡ is_eq (place_cmp (place row.now) (place other.now)) }
{
    let keys = row.key.as_slice().cmp(other.key.as_slice());
    row.table.cmp(&other.table).then(keys).is_eq()
}

/// Whether two rows are one: the place, and the body.
fn is_row(row: &Row, other: &Row) -> bool
    ensures { result ≡ is_eq (row_cmp row.now other.now) }
{
    let keys = row.key.as_slice().cmp(other.key.as_slice());
    let bodies = row.body.as_slice().cmp(other.body.as_slice());
    row.table.cmp(&other.table).then(keys).then(bodies).is_eq()
}

/// The row that stands where this one does, or None where none does.
pub fn row_in<'r>(rows: &'r [Row], row: &Row) -> Option<&'r Row>
    ensures { option_copied result ≡ row_in (place row.now) rows.now }
{
    rows.iter().find(|other| is_there(other, row))
}

/// Whether a row stands where this one does.
pub(crate) fn have_place(rows: &[Row], row: &Row) -> bool
    ensures { result ≡ have_place rows.now row.now }
{
    row_in(rows, row).is_some()
}

/// Whether this very row is among them.
pub(crate) fn have_row(rows: &[Row], row: &Row) -> bool
    ensures { result ≡ have_row rows.now row.now }
{
    match row_in(rows, row) {
        Some(other) => is_row(other, row),
        None => false,
    }
}
