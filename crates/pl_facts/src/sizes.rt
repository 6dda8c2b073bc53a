//! The size of an entry.

mod counted;
mod facts;
mod requests;

ghost use Rattle.std.specs.Prelude.{◌≡◌, ◌≤◌, ◌↔◌, IsTrue};
ghost use Rattle.pl_facts.specs.Sizes.{counted, size_of, size_with, total, fact_size};

use crate::entry::Entry;
use crate::fact::Fact;
use counted::Counted;
use pl_base::List;
use pl_requests::Request;

/// The bytes of the texts in an entry's request and in its facts, or 2^64 - 1 where they are more.
/// Of a run that is queued what its plan was compiled from counts, and not the plan; digests, kinds
/// and numbers don't count. It takes no memory.
pub fn size_of(entry: &Entry) -> u64
    ensures { result ≡ counted (size_of entry.now) }
{
    size_with(&entry.call.request, entry.facts.as_slice())
}

/// The same of an entry that isn't made yet, by its request and its facts.
pub fn size_with(request: &Request, facts: &[Fact]) -> u64
    ensures { result ≡ counted (size_with request.now facts.now) }
{
    request.size().saturating_add(facts_size(facts))
}

/// The bytes of the texts in facts, as `size_of` counts them.
pub fn facts_size(facts: &[Fact]) -> u64
    ensures { result ≡ counted (total fact_size facts.now) }
{
    let mut size: u64 = 0;
    for fact in facts {
        size = size.saturating_add(fact.size());
    }
    size
}

/// Whether a request and the facts that it adds have at most so many bytes of texts. It takes no
/// memory.
pub fn fits(request: &Request, facts: &[Fact], most: u32) -> bool
    ensures { IsTrue result ↔ (size_with request.now facts.now ≤ most) }
{
    size_with(request, facts) <= u64::from(most)
}
