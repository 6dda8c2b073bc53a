//! The row of the service's numbers.

ghost use Rattle.std.specs.Prelude.{◌≡◌, IfOk, IfSome};
ghost use Rattle.std.specs.Option.{option_map};
ghost use Rattle.pl_keeper.specs.Rows.{row_of, IsKept};
ghost use Rattle.pl_kept.specs.Kept.{numbers_kept};

use crate::written::written;
use pl_base::{Memory, Row};
use pl_journal::Journal;
use std::alloc::Global;

/// The row of the service's numbers, the number of the next change among them, or None where no row
/// was changed yet.
pub fn numbers_row(alloc: Global, journal: &Journal, change: u64) -> Result<Option<Row>, Memory>
    ensures row { IfOk result
        (λ row. row ≡ option_map row_of (numbers_kept change journal.now)) }
    ensures fits { IfOk result (λ _. IfSome (numbers_kept change journal.now) IsKept) }
{
    if change == 0 {
        return Ok(None);
    }
    let counts = (journal.last_run(), (journal.version(), change));
    written(alloc, 0, &(), &(journal.last_moment(), counts))
}
