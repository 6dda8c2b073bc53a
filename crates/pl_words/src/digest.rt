//! The value of `--admin`.

ghost use Rattle.std.specs.Prelude.{◌≡◌};
ghost use Rattle.pl_words.specs.Words.{digest_of};

use pl_base::Digest;
use pl_digests::{digest_in, is_of_nothing};

/// The digest that 64 lower-case hexadecimal digits are, unless it is that of no bytes.
pub(crate) fn digest(text: &[u8]) -> Option<Digest>
    ensures { result ≡ digest_of text.now }
{
    match digest_in(text) {
        Some(digest) if !is_of_nothing(&digest) => Some(digest),
        _ => None,
    }
}
