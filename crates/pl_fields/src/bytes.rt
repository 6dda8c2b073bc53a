//! What stands at the front of bytes.

ghost use Rattle.std.specs.Prelude.{◌≡◌, ◌≢◌, ◌<◌, ◌^◌, ◌∷◌, ◌++◌, ℕ, List, length, MatchOption};
ghost use Rattle.pl_fields.specs.Fields.{number, count, text};

/// A number of eight bytes, and what stands behind it.
pub(crate) fn number_at(bytes: &[u8]) -> Option<(u64, &[u8])>
    ensures { MatchOption result
        ((n : ℕ) (rest : List ℕ) → n < 2 ^ 64 → bytes.now ≢ number n ++ rest)
        (λ read. (read.0 < 2 ^ 64) × (bytes.now ≡ number read.0 ++ read.1.now)) }
{
    if bytes.len() < 8 {
        return None;
    }
    let (front, rest) = bytes.split_at(8);
    let number = u64::from_be_bytes([
        front[0], front[1], front[2], front[3], front[4], front[5], front[6], front[7],
    ]);
    Some((number, rest))
}

/// A length of four bytes, and what stands behind it.
pub(crate) fn count_at(bytes: &[u8]) -> Option<(u32, &[u8])>
    ensures { MatchOption result
        ((n : ℕ) (rest : List ℕ) → n < 2 ^ 32 → bytes.now ≢ count n ++ rest)
        (λ read. (read.0 < 2 ^ 32) × (bytes.now ≡ count read.0 ++ read.1.now)) }
{
    if bytes.len() < 4 {
        return None;
    }
    let (front, rest) = bytes.split_at(4);
    let count = u32::from_be_bytes([front[0], front[1], front[2], front[3]]);
    Some((count, rest))
}

/// The bytes of a text, and what stands behind it.
pub(crate) fn piece_at(bytes: &[u8]) -> Option<(&[u8], &[u8])>
    ensures { MatchOption result
        ((piece rest : List ℕ) → length piece < 2 ^ 32 → bytes.now ≢ text piece ++ rest)
        (λ read. (length read.0.now < 2 ^ 32) × (bytes.now ≡ text read.0.now ++ read.1.now)) }
{
    let (count, rest) = count_at(bytes)?;
    let count = count as usize;
    if rest.len() < count {
        return None;
    }
    Some(rest.split_at(count))
}
