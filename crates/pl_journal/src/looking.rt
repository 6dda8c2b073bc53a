//! The fact at a place, and the latest fact about a key.

ghost use Rattle.std.specs.Prelude.{◌≡◌, slice_get};
ghost use Rattle.std.specs.Option.{option_copied};
ghost use Rattle.pl_log.specs.Keys.{second_seen, seen};
ghost use Rattle.pl_journal.specs.About.{latest_about, latest_also, latest_of};
ghost use Rattle.pl_journal.specs.Kinds.{is_of};

use crate::about::Logged;
use crate::journal::Journal;
use crate::kinds::What;
use pl_facts::Fact;
use pl_log::{Key, SecondKey};

impl Journal {
    /// The fact at a place from 0, or None where there are no more facts than that.
    pub fn fact(&self, at: usize) -> Option<&Fact>
        ensures { option_copied result ≡ slice_get self.now.facts at }
    {
        fact_of(self.log.get(at))
    }

    /// The latest fact about a key.
    pub(crate) fn latest(&self, key: Key<'_>) -> Option<&Fact>
        ensures { option_copied result ≡ latest_about (seen key.entry) self.now.facts }
    {
        fact_of(self.log.latest(key))
    }

    /// The latest fact of a kind about a key.
    pub(crate) fn latest_of(&self, key: Key<'_>, what: What<'_>) -> Option<&Fact>
        ensures { option_copied result ≡
            latest_of (seen key.entry) (is_of what.entry) self.now.facts }
    {
        fact_of(self.log.latest_of(key, &what))
    }

    /// The latest fact that is about a second key.
    pub(crate) fn latest_also(&self, key: SecondKey<'_>) -> Option<&Fact>
        ensures { option_copied result ≡ latest_also (second_seen key.entry) self.now.facts }
    {
        fact_of(self.log.latest_second(key))
    }
}

/// The fact that was found.
pub(crate) fn fact_of(found: Option<&Logged>) -> Option<&Fact>
    ensures { option_copied result ≡ option_copied found.entry }
{
    match found {
        Some(logged) => Some(&logged.fact),
        None => None,
    }
}
