//! The numbers of the journal.

ghost use Rattle.std.specs.Prelude.{◌≡◌};
ghost use Rattle.pl_facts.specs.Sizes.{counted};
ghost use Rattle.pl_journal.specs.Log as spec;

use crate::journal::Journal;
use crate::looking::fact_of;
use crate::told::run_told;
use pl_base::Moment;
use pl_log::SecondKey;

impl Journal {
    /// The moment of the last fact, or that of the opening where that is later. It is 0 where
    /// nothing has happened.
    pub fn last_moment(&self) -> Moment
        ensures { result ≡ spec.last_moment self.now }
    {
        match fact_of(self.log.last()) {
            Some(fact) => self.numbers.moment.max(fact.moment),
            None => self.numbers.moment,
        }
    }

    /// The number of the run that was queued last, or that of the opening where that is greater. It
    /// is 0 where no run was queued.
    pub fn last_run(&self) -> u64
        ensures { result ≡ spec.last_run self.now }
    {
        match self.latest_also(SecondKey::Queue) {
            Some(fact) => match run_told(&fact.event) {
                Some(queued) => self.numbers.run.max(queued.run),
                None => self.numbers.run,
            },
            None => self.numbers.run,
        }
    }

    /// The version of the files: that of the opening, and one more for each time that a file was
    /// put or removed since, or 2^64 - 1 where that is more. While it stays, so do the files.
    pub fn version(&self) -> u64
        ensures { result ≡ counted (spec.version self.now) }
    {
        self.numbers.version.saturating_add(self.changes)
    }
}
