//! Names that nobody may have, and digests that two would have.

ghost use Rattle.std.specs.Prelude.{◌≡◌};
ghost use Rattle.std.specs.List.{list_any};
ghost use Rattle.pl_torn.specs.Names as spec;

use crate::seen::{Seen, principal_of};
use pl_base::Digest;
use pl_keeper::{KeptPipeline, KeptPrincipal};

/// Whether two digests are one.
fn same_digest(one: &Digest, other: &Digest) -> bool
    ensures { result ≡ spec.same_digest one.now other.now }
{
    one.bytes.as_slice().cmp(other.bytes.as_slice()).is_eq()
}

/// Whether it is a principal's row with this digest.
fn has_digest(digest: &Digest, one: &Seen<'_>) -> bool
    ensures { result ≡ spec.has_digest digest.now one.now }
{
    match principal_of(one) {
        Some(told) => same_digest(&told.digest, digest),
        None => false,
    }
}

/// Whether a principal in front has this digest.
fn is_taken(digest: &Digest, before: &[Seen<'_>]) -> bool
    ensures { result ≡ list_any (spec.has_digest digest.now) before.now }
{
    before.iter().any(|one| has_digest(digest, one))
}

/// Whether a pipeline has the name of the one of queued texts.
pub(crate) fn is_reserved_pipeline(told: &KeptPipeline) -> bool
    ensures { result ≡ spec.is_reserved_pipeline told.now }
{
    told.name.as_str() == "text"
}

/// Whether a principal has the name of the one that is built in, its digest, or that of one in
/// front.
pub(crate) fn is_reserved_principal(
    admin: &Digest,
    before: &[Seen<'_>],
    told: &KeptPrincipal,
) -> bool
    ensures { result ≡ spec.is_reserved_principal admin.now before.now told.now }
{
    told.name.as_str() == "admin"
        || same_digest(&told.digest, admin)
        || is_taken(&told.digest, before)
}
