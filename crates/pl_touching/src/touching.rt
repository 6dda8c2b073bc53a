ghost use Rattle.std.specs.Prelude.{IfOk, []};
ghost use Rattle.pl_changes.specs.Differing.{Apart, Joins};
ghost use Rattle.pl_touched.specs.Touched.{rows_at, touched_by, FitAt};

use crate::events::add_touched;
use pl_base::{Memory, Row};
use pl_facts::Fact;
use pl_touched::Journal;
use std::alloc::Global;

/// The rows that stand at the places that facts touch, of what the journal tells: of each place
/// one. Each can be read again. Memory where memory is wanting, and where a text or a list is too
/// long for a row.
pub fn touched_rows(alloc: Global, journal: &Journal, facts: &[Fact]) -> Result<Vec<Row>, Memory>
    ensures apart { IfOk result (λ rows. Apart rows.items) }
    ensures rows { IfOk result (λ rows.
        Joins [] (rows_at (touched_by facts.now) journal.now.facts) rows.items) }
    ensures fits { IfOk result (λ _. FitAt (touched_by facts.now) journal.now.facts) }
{
    let mut rows = Vec::new(alloc);
    for fact in facts {
        add_touched(alloc, journal, &mut rows, &fact.event)?;
    }
    Ok(rows)
}
