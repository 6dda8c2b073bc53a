ghost use Rattle.std.specs.Prelude.{◌≡◌, IfOk};
ghost use Rattle.pl_all_rows.specs.Brought.{brought_by};
ghost use Rattle.pl_row_changes.specs.Below.pl_rows.specs.Entry.{AllFit};
ghost use Rattle.pl_row_changes.specs.Below.pl_rows.specs.State.{AreRows};
ghost use Rattle.pl_touched.specs.Touched.{rows_at, FitAt};

use crate::events::push_fact;
use crate::ordering::put_apart;
use pl_base::{List, Memory, Row};
use pl_journal::Journal;
use pl_row_changes::with_numbers;
use std::alloc::Global;

/// All rows of a state, in order of table and key: the service's numbers from the first change of a
/// row on, and at each place what is kept there. Each can be read again. `change` is the number of
/// the next change. Memory where memory is wanting, and where a text or a list is too long for a
/// row.
pub fn rows_of(alloc: Global, journal: &Journal, change: u64) -> Result<List<Row>, Memory>
    ensures rows { IfOk result (AreRows change journal.now) }
    ensures fits { IfOk result (λ _. AllFit journal.now.facts) }
{
    let mut rows = brought_rows(alloc, journal)?;
    put_apart(&mut rows);
    let all = with_numbers(alloc, journal, change, rows)?;
    Ok(List::from_vec(all))
}

/// The rows at all places at which a fact brought one, as often as one did.
fn brought_rows(alloc: Global, journal: &Journal) -> Result<Vec<Row>, Memory>
    ensures rows { IfOk result (λ rows.
        rows.items ≡ rows_at (brought_by journal.now.facts) journal.now.facts) }
    ensures fits { IfOk result (λ _. FitAt (brought_by journal.now.facts) journal.now.facts) }
{
    let mut rows = Vec::new(alloc);
    for at in 0..journal.len() {
        push_fact(alloc, journal, &mut rows, at)?;
    }
    Ok(rows)
}
