ghost use Rattle.std.specs.Prelude.{◌≡◌};
ghost use Rattle.std.specs.List.{list_all};
ghost use Rattle.pl_digests.specs.Digests.{digest_in, hex_of, is_lower_hex, is_of_nothing};
ghost use Rattle.pl_digests.specs.Digests.{IsDigest};

use hex::FromHex;
use pl_base::Digest;
use sha2::{Digest as _, Sha256};

/// The digest whose 64 hexadecimal digits in lower case a text is; None of any other text. It takes
/// no memory.
pub fn digest_in(text: &[u8]) -> Option<Digest>
    ensures { result ≡ digest_in text.now }
{
    if !is_all_lower_hex(text) {
        return None;
    }
    match <[u8; 32] as FromHex>::from_hex(text) {
        Ok(bytes) => Some(Digest { bytes }),
        Err(_) => None,
    }
}

/// A digest's 64 hexadecimal digits in lower case. It takes no memory.
pub fn hex_of(digest: &Digest) -> [u8; 64]
    ensures text { result ≡ hex_of digest.now }
    ensures is { IsDigest digest.now }
{
    let mut text = [0; 64];
    let bytes = digest.bytes.as_slice();
    match hex::encode_to_slice(bytes, text.as_mut_slice()) {
        Ok(()) => text,
        Err(_) => unreachable!(),
    }
}

/// Whether a digest is that of no bytes, which nobody may have: every caller without a token would
/// be that principal. It takes no memory.
pub fn is_of_nothing(digest: &Digest) -> bool
    ensures { result ≡ is_of_nothing digest.now }
{
    let nothing: &[u8] = &[];
    digest.bytes == Sha256::digest(nothing)
}

fn is_all_lower_hex(text: &[u8]) -> bool
    ensures { result ≡ list_all is_lower_hex text.now }
{
    text.iter().all(|digit| is_lower_hex(*digit))
}

fn is_lower_hex(digit: u8) -> bool
    ensures { result ≡ is_lower_hex digit }
{
    digit.is_ascii_digit() || (b'a' <= digit && digit <= b'f')
}
