//! Rows in order, one of each place.

ghost use Rattle.std.specs.Prelude.{◌≡◌};
ghost use Rattle.std.specs.List.{Contains};
ghost use Rattle.std.specs.Ordering.{is_eq};
ghost use Rattle.pl_base.specs.declared.row.Row.{Row as Kept};
ghost use Rattle.pl_changes.specs.Differing.{Ascend};
ghost use Rattle.pl_keeper.specs.Keeping.{place, place_cmp};

use pl_base::Row;
use pl_keeper::put_in_order;

/// Whether two rows stand at one place.
fn stand_together(row: &Row, other: &Row) -> bool
    ensures { result ≡ is_eq (place_cmp (place row.now) (place other.now)) }
{
    let keys = row.key.as_slice().cmp(other.key.as_slice());
    row.table.cmp(&other.table).then(keys).is_eq()
}

/// Puts rows in order of table and key, and leaves one at each place. It takes no memory.
pub(crate) fn put_apart(rows: &mut Vec<Row>)
    ensures ascend { Ascend rows.new.items }
    ensures from { (row : Kept) → Contains rows.new.items row → Contains rows.old.items row }
    ensures each { (row : Kept) → Contains rows.old.items row →
        (one : Kept) × Contains rows.new.items one × (place one ≡ place row) }
{
    put_in_order(rows.as_mut_slice());
    rows.dedup_by(|row, other| stand_together(row, other));
}
