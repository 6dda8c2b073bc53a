ghost use Rattle.std.specs.Prelude.{◌≡◌, ◌≤◌, [], List as list, IfOk, OnErr, OnOk, drop, length};
ghost use Rattle.pl_facts.specs.declared.fact.Fact.{Fact as Told};
ghost use Rattle.pl_journal.specs.Log.{Log};
ghost use Rattle.pl_rows.specs.Entry.{with_added};
ghost use Rattle.pl_row_changes.specs.Changing.{installed, AreOfEntry};

use crate::looked::{changes_behind, look_before};
use crate::pushing::push_copies;
use pl_base::{Change, List, Memory};
use pl_facts::Fact;
use pl_open_runs::IndexedJournal;
use pl_touching::touched_rows;
use std::alloc::Global;

/// What an entry changes among the kept rows, and the number of the next change behind it.
#[derive(Drop)]
pub struct EntryChanges {
    pub changes: List<Change>,
    pub next: u64,
}

impl EntryChanges {
    /// What is changed where no fact comes: nothing.
    pub fn none(alloc: Global, change: u64) -> EntryChanges
        ensures { (log : Log) → AreOfEntry change result.next log [] result.changes }
    {
        EntryChanges {
            changes: List::new(alloc),
            next: change,
        }
    }
}

/// What the facts that aren't installed, which are these, change among the kept rows, where
/// `change` is the number of the next change before them. The journal stays as it is. Memory where
/// memory is wanting, where a text or a list is too long for a row, and where a number of 64 bits
/// is too small for that of the next change; then these facts are taken away from the journal.
pub fn changes_of(
    alloc: Global,
    journal: &mut IndexedJournal,
    added: &[Fact],
    change: u64,
) -> Result<EntryChanges, Memory>
    requires within { journal.old.installed ≤ length journal.old.facts }
    requires added { drop journal.old.installed journal.old.facts ≡ added.now }
    ensures journal { OnOk result (journal.new ≡ journal.old) }
    ensures err { OnErr result (journal.new ≡ installed journal.old) }
    ensures changes { IfOk result (λ told.
        AreOfEntry change told.next (installed journal.old) added.now told.changes) }
{
    match looked_changes(alloc, journal, added, change) {
        Ok(told) => Ok(told),
        Err(Memory) => {
            journal.back_to_installed();
            Err(Memory)
        }
    }
}

/// The same, but that after Memory some of the facts may be there.
fn looked_changes(
    alloc: Global,
    journal: &mut IndexedJournal,
    added: &[Fact],
    change: u64,
) -> Result<EntryChanges, Memory>
    requires { drop journal.old.installed journal.old.facts ≡ added.now }
    ensures journal { OnOk result (journal.new ≡ journal.old) }
    ensures err { OnErr result ((more : list Told) ×
        (journal.new ≡ with_added (installed journal.old) more)) }
    ensures changes { IfOk result (λ told.
        AreOfEntry change told.next (installed journal.old) added.now told.changes) }
{
    let behind = touched_rows(alloc, journal.journal(), added)?;
    let looked = look_before(alloc, journal, added, change, behind)?;
    push_copies(alloc, journal, added)?;
    changes_behind(alloc, journal.journal(), looked)
}
