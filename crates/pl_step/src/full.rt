//! What the service holds at most.

ghost use Rattle.std.specs.Prelude.{◌≡◌, nat_lt};
ghost use Rattle.pl_journal.specs.Log.{Log, last_run, version};
ghost use Rattle.pl_step.specs.Full as spec;

use crate::held::Held;
use pl_facts::{Fact, size_with};
use pl_journal::Journal;
use pl_requests::Request;

const MOST_ENTRIES: u64 = 1_048_576;

const MOST_BYTES: u64 = 268_435_456;

const LAST_NUMBER: u64 = 999_999_999_999_999_999;

/// Whether a number of the journal has more than 18 digits: the last run's, or the files' version.
fn has_long_number(journal: &Journal) -> bool
    ensures { result ≡ spec.has_long_number journal.now }
{
    journal.last_run() > LAST_NUMBER || journal.version() > LAST_NUMBER
}

/// Whether an entry of these facts, which stand in the journal, is too much for the service: it
/// would be one too many, its texts with those of all entries too long, or the number of a run or
/// the version of the files has more than 18 digits.
pub(crate) fn is_large(held: &Held, journal: &Journal, request: &Request, added: &[Fact]) -> bool
    ensures { result ≡ spec.is_large held.now journal.now request.now added.now }
{
    let size = held.size.saturating_add(size_with(request, added));
    held.entries >= MOST_ENTRIES || size > MOST_BYTES || has_long_number(journal)
}

/// Whether a number has more than 18 digits.
pub(crate) fn is_long(number: u64) -> bool
    ensures { result ≡ nat_lt spec.last_number number }
{
    number > LAST_NUMBER
}
