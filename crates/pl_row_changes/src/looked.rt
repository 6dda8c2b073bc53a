//! The rows that are looked at before an entry and behind it.

ghost use Rattle.std.specs.Prelude.{◌≡◌, ◌++◌, IfOk};
ghost use Rattle.pl_changes.specs.Differing.{differing};
ghost use Rattle.pl_row_changes.specs.Changing.{installed};
ghost use Rattle.pl_row_changes.specs.Looking.{numbers, IsLooked};

use crate::changing::EntryChanges;
use crate::numbers::{next_change, with_numbers};
use pl_base::{Memory, Row};
use pl_changes::differing;
use pl_facts::Fact;
use pl_journal::Journal;
use pl_open_runs::IndexedJournal;
use pl_touching::touched_rows;
use std::alloc::Global;

/// The rows at touched places before, with that of the service's numbers; those behind; and the
/// number of the next change behind.
#[derive(Drop)]
pub(crate) struct Looked {
    pub(crate) old: Vec<Row>,
    pub(crate) behind: Vec<Row>,
    pub(crate) next: u64,
}

/// Takes the facts away that aren't installed, and looks at the rows at the places that they touch.
pub(crate) fn look_before(
    alloc: Global,
    journal: &mut IndexedJournal,
    added: &[Fact],
    change: u64,
    behind: Vec<Row>,
) -> Result<Looked, Memory>
    ensures journal { journal.new ≡ installed journal.old }
    ensures looked { IfOk result
        (IsLooked change (installed journal.old) added.now behind.items) }
{
    journal.back_to_installed();
    let before = touched_rows(alloc, journal.journal(), added)?;
    let next = next_change(alloc, change, before.as_slice(), behind.as_slice())?;
    let old = with_numbers(alloc, journal.journal(), change, before)?;
    Ok(Looked { old, behind, next })
}

/// The changes of what differs, where the journal has the facts again.
pub(crate) fn changes_behind(
    alloc: Global,
    journal: &Journal,
    looked: Looked,
) -> Result<EntryChanges, Memory>
    ensures next { IfOk result (λ told. told.next ≡ looked.next) }
    ensures changes { IfOk result (λ told. told.changes ≡
        differing looked.old.items (numbers looked.next journal.now ++ looked.behind.items)) }
{
    let Looked { old, behind, next } = looked;
    let new = with_numbers(alloc, journal, next, behind)?;
    let changes = differing(alloc, old.as_slice(), new.as_slice())?;
    Ok(EntryChanges { changes, next })
}
