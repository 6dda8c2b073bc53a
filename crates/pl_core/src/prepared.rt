//! What is prepared for a call.

ghost use Rattle.std.specs.Prelude.{◌≡◌, ◌≤◌, ◌+◌, length, IfOk, OnErr};
ghost use Rattle.pl_core.specs.Prepared.{IsEntryOf, added_by};
ghost use Rattle.pl_history.specs.Below.pl_due.specs.Fit.{AreFit, last_moment};
ghost use Rattle.pl_facts.specs.Sizes.{counted};
ghost use Rattle.pl_all_rows.specs.Below.pl_row_changes.specs.Changing.{AreOfEntry};
ghost use Rattle.pl_all_rows.specs.Below.pl_row_changes.specs.Counting.{row_changes};
ghost use Rattle.pl_history.specs.Below.pl_step.specs.Fits.{CanRunMade};
ghost use Rattle.pl_history.specs.Below.pl_step.specs.Full.{with_facts};
ghost use Rattle.pl_history.specs.Below.pl_step.specs.Step.{IsStep, stepped_with};

use pl_all_rows::EntryChanges;
use pl_base::{Change, ExactCopy, List, Memory, Refusal, Shared};
use pl_facts::{Compiled, Entry};
use pl_history::{Entered, Held, Stepped, step};
use pl_open_runs::IndexedJournal;
use pl_requests::{Call, Reply};
use std::alloc::Global;

/// The reply to a call, and the entry that the call makes, or None where it adds no fact, with what
/// it changes among the kept rows.
#[derive(Drop)]
pub struct Prepared {
    pub reply: Reply,
    pub entry: Option<Entry>,
    /// What the entry changes among the kept rows.
    pub changes: List<Change>,
}

/// What a call at a seat is answered, and the entry that it makes, whose facts stand behind the
/// others then, with the number of the next change behind it. After Memory the journal is as
/// before.
pub(crate) fn prepare(
    alloc: Global,
    journal: &mut IndexedJournal,
    behind: &mut u64,
    held: &Held,
    seat: u64,
    call: &Call,
    made: Option<Result<Shared<Compiled>, Refusal>>,
) -> Result<Prepared, Memory>
    requires moment { call.now.moment ≤ last_moment }
    requires fit { AreFit journal.old.facts }
    requires can_run { CanRunMade made }
    requires installed { journal.old.installed ≡ length journal.old.facts }
    requires number { held.now.entries + 1 ≤ 18446744073709551615 }
    ensures steps { IfOk result (λ prepared. IsStep held.now journal.old call.now made
        (stepped_with prepared.reply (added_by prepared.entry))) }
    ensures entry { IfOk result (λ prepared.
        IsEntryOf (held.now.entries + 1) seat call.now prepared.entry) }
    ensures rows { IfOk result (λ prepared. AreOfEntry held.now.change behind.new journal.old
        (added_by prepared.entry) prepared.changes) }
    ensures number { IfOk result (λ prepared. behind.new ≡ counted (held.now.change +
        row_changes journal.old.facts (added_by prepared.entry))) }
    ensures journal { IfOk result (λ prepared.
        journal.new ≡ with_facts journal.old (added_by prepared.entry)) }
    ensures err { OnErr result (journal.new ≡ journal.old) }
    ensures fit { AreFit journal.new.facts }
{
    let kept = call.copy(alloc)?;
    let Entered { stepped, rows } = step(alloc, journal, held, call, made)?;
    let Stepped { reply, added } = stepped;
    let EntryChanges { changes, next } = rows;
    *behind = next;
    if added.is_empty() {
        return Ok(Prepared {
            reply,
            entry: None,
            changes,
        });
    }
    let entry = Entry {
        number: held.entries + 1,
        seat,
        call: kept,
        facts: added,
    };
    Ok(Prepared {
        reply,
        entry: Some(entry),
        changes,
    })
}
