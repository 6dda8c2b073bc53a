ghost use Rattle.std.specs.Prelude.{◌≡◌, ◌≤◌, ◌++◌, List, OnErr, OnOk};
ghost use Rattle.pl_due.specs.Fit.{AreFit, last_moment};
ghost use Rattle.pl_facts.specs.declared.fact.Fact.{Fact as Told};
ghost use Rattle.pl_settling.specs.Settles.{Adds, Settles};

use pl_base::{Memory, Moment};
use pl_due::{IndexedJournal, due};
use pl_facts::Fact;
use std::alloc::Global;

/// Adds what is due at a moment to a journal, one fact after the other, until nothing is due: the
/// facts that `due` tells, each at this moment.
///
/// A job gets at most one of them, and a stage at most two (`settling_laws`). Each fact's moment is
/// one that a clock tells, and each run's plan can run, as `due` asks; the same holds of all facts
/// afterwards. After Memory the journal has what it had, and behind that some of the facts that
/// would have been added: take them away with `back_to_installed`.
pub fn settle(alloc: Global, journal: &mut IndexedJournal, moment: Moment) -> Result<(), Memory>
    requires moment { moment ≤ last_moment }
    requires fit { AreFit journal.old.facts }
    ensures ok { OnOk result ((added : List Told) × Settles moment journal.old.facts added ×
        (journal.new ≡ record journal.old { facts = journal.old.facts ++ added })) }
    ensures err { OnErr result ((added : List Told) × Adds moment journal.old.facts added ×
        (journal.new ≡ record journal.old { facts = journal.old.facts ++ added })) }
    ensures fit { AreFit journal.new.facts }
{
    loop {
        match due(alloc, journal, moment)? {
            Some(event) => journal.push(Fact { moment, event })?,
            None => return Ok(()),
        }
    }
}
