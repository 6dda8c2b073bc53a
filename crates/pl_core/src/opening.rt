//! What a service is opened with.

ghost use Rattle.std.specs.Prelude.{◌≡◌, [], IfOk};
ghost use Rattle.pl_history.specs.History.{log_of};

use pl_base::{Digest, Memory};
use pl_facts::Fact;
use pl_journal::Numbers;
use pl_open_runs::IndexedJournal;
use std::alloc::Global;

/// A journal of facts, in order, that goes on from these numbers. Memory where memory is wanting.
pub(crate) fn begun(
    alloc: Global,
    admin: Digest,
    numbers: Numbers,
    change: u64,
    facts: Vec<Fact>,
) -> Result<IndexedJournal, Memory>
    ensures { IfOk result (λ journal. journal ≡ log_of (record {
      admin = admin;
      moment = numbers.moment;
      run = numbers.run;
      version = numbers.version;
      change = change;
      facts = facts.items;
    }) []) }
{
    let mut journal = IndexedJournal::new(alloc, admin)?;
    for fact in facts {
        journal.push(fact)?;
    }
    journal.begin(numbers);
    Ok(journal)
}
