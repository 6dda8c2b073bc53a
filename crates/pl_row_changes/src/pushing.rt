//! Facts behind the others.

ghost use Rattle.std.specs.Prelude.{◌≡◌, List as list, OnErr, OnOk};
ghost use Rattle.pl_facts.specs.declared.fact.Fact.{Fact as Told};
ghost use Rattle.pl_rows.specs.Entry.{with_added};

use pl_base::{ExactCopy, Memory};
use pl_facts::Fact;
use pl_open_runs::IndexedJournal;
use std::alloc::Global;

/// Puts copies of facts behind the others. After Memory some may be there.
pub(crate) fn push_copies(
    alloc: Global,
    journal: &mut IndexedJournal,
    facts: &[Fact],
) -> Result<(), Memory>
    ensures ok { OnOk result (journal.new ≡ with_added journal.old facts.now) }
    ensures err { OnErr result ((more : list Told) × (journal.new ≡ with_added journal.old more)) }
{
    for fact in facts {
        journal.push(fact.copy(alloc)?)?;
    }
    Ok(())
}
