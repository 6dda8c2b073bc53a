ghost use Rattle.std.specs.Prelude.{◌≡◌, ◌<◌, ◌≤◌, ◌+◌, ◌*◌, ◌-◌, ◌^◌, length, take, drop, map};
ghost use Rattle.std.specs.Prelude.{slice_index, min, true, false, IfOk, MatchOption};
ghost use Rattle.std.specs.List.{prefix_len};
ghost use Rattle.std.specs.Char.{is_ascii_digit};
ghost use Rattle.std.specs.Str.Parse.{starts_with_minus, without_leading_sign};
ghost use Rattle.pl_expr.specs.Numerals.{is_blank, skip, signed, number_in, goes_on, runs_of};
ghost use Rattle.pl_expr.specs.Numerals.{behind_runs, segments_of, version_in};
ghost use Rattle.pl_reading.specs.Bytes.{digits_of, number_of};

use pl_base::{List, Memory};
use std::alloc::Global;

/// How many blanks a text begins with: spaces, tabs and line feeds.
fn count_blanks(text: &str) -> usize
    ensures value { result ≡ prefix_len is_blank text.now }
    ensures within { result ≤ length text.now }
{
    let bytes = text.as_bytes();
    for (count, byte) in bytes.iter().enumerate() {
        if *byte != b' ' && *byte != b'\t' && *byte != b'\n' {
            return count;
        }
    }
    bytes.len()
}

/// How many decimal digits a text begins with.
pub fn count_digits(text: &str) -> usize
    ensures value { result ≡ prefix_len is_ascii_digit text.now }
    ensures within { result ≤ length text.now }
{
    let bytes = text.as_bytes();
    for (count, byte) in bytes.iter().enumerate() {
        if !byte.is_ascii_digit() {
            return count;
        }
    }
    bytes.len()
}

/// Cuts a text behind so many bytes, of which the last is an ASCII character.
pub fn split_ascii(text: &str, count: usize) -> (&str, &str)
    requires within { count ≤ length text.now }
    requires ascii { 0 < count → slice_index text.now (count - 1) < 128 }
    ensures front { result.0.now ≡ take count text.now }
    ensures behind { result.1.now ≡ drop count text.now }
{
    text.split_at(count)
}

/// What stands behind the blanks that the text begins with.
pub fn skip_blanks(text: &str) -> &str
    ensures { result.now ≡ skip is_blank text.now }
{
    let count = count_blanks(text);
    split_ascii(text, count).1
}

/// What stands behind the digits that the text begins with.
pub fn skip_digits(text: &str) -> &str
    ensures { result.now ≡ skip is_ascii_digit text.now }
{
    let count = count_digits(text);
    split_ascii(text, count).1
}

/// What stands behind the dot that the text begins with, where a digit follows it.
pub fn skip_dot(text: &str) -> Option<&str>
    ensures { MatchOption result (goes_on text.now ≡ false) (λ rest. (goes_on text.now ≡ true) ×
        (rest.now ≡ drop 1 text.now)) }
{
    match text.as_bytes() {
        [b'.', b'0'..=b'9', ..] => Some(split_ascii(text, 1).1),
        _ => None,
    }
}

/// The number that the digits at the front of a text write, or u64::MAX where it is more.
pub fn leading_number(text: &str) -> u64
    ensures { result ≡ min (number_of (digits_of text.now)) (2 ^ 64 - 1) }
{
    let bytes = text.as_bytes();
    let mut number: u64 = 0;
    for byte in bytes {
        if !byte.is_ascii_digit() {
            return number;
        }
        number = with_digit(number, *byte);
    }
    number
}

/// The number with one more digit behind it, or u64::MAX where that is more.
fn with_digit(number: u64, digit: u8) -> u64
    requires { 48 ≤ digit }
    ensures { result ≡ min (number * 10 + (digit - 48)) (2 ^ 64 - 1) }
{
    number
        .saturating_mul(10)
        .saturating_add(u64::from(digit - b'0'))
}

/// The number with its sign, where 64 bits hold it.
pub fn with_sign(negative: bool, number: u64) -> Option<i64>
    ensures { result ≡ signed negative number }
{
    if !negative {
        return i64::try_from(number).ok();
    }
    match i64::try_from(number) {
        Ok(number) => Some(-number),
        Err(_) => {
            if number == 1 << 63 {
                Some(i64::MIN)
            } else {
                None
            }
        }
    }
}

/// The text behind its sign, and whether that is a minus.
fn split_sign(text: &str) -> (bool, &str)
    ensures negative { result.0 ≡ starts_with_minus text.now }
    ensures unsigned { result.1.now ≡ without_leading_sign text.now }
{
    match text.as_bytes() {
        [b'-', ..] => (true, split_ascii(text, 1).1),
        [b'+', ..] => (false, split_ascii(text, 1).1),
        _ => (false, text),
    }
}

/// The number that a text is: 0 where it is empty, else blanks, an optional sign, digits and
/// blanks, within 64 signed bits.
#[tactic(auto, using(crate::proofs::Bytes::signed_capped), unfolding(crate::specs::Numerals::number_in))]
pub fn read_number(text: &str) -> Option<i64>
    ensures { result ≡ number_in text.now }
{
    if text.is_empty() {
        return Some(0);
    }
    let (negative, unsigned) = split_sign(skip_blanks(text));
    if count_digits(unsigned) == 0 || !skip_blanks(skip_digits(unsigned)).is_empty() {
        return None;
    }
    with_sign(negative, leading_number(unsigned))
}

/// The numbers that the runs of digits at the front of a text write, u64::MAX standing for what is
/// more, and the text behind these runs.
#[tactic(auto, using(crate::proofs::Bytes::behind_more_stops, crate::proofs::Bytes::behind_more_turn), unfolding(crate::specs::Numerals::more_runs, crate::specs::Numerals::behind_more))]
pub fn read_runs(alloc: Global, text: &str) -> Result<(List<u64>, &str), Memory>
    ensures numbers { IfOk result (λ runs. runs.0 ≡
        map (λ digits. min (number_of digits) (2 ^ 64 - 1)) (runs_of text.now)) }
    ensures behind { IfOk result (λ runs. runs.1.now ≡ behind_runs text.now) }
{
    let mut numbers = List::new(alloc);
    numbers.push(leading_number(text))?;
    let mut behind = skip_digits(text);
    for _turn in 0..3u32 {
        match skip_dot(behind) {
            Some(run) => {
                numbers.push(leading_number(run))?;
                behind = skip_digits(run);
            }
            None => return Ok((numbers, behind)),
        }
    }
    Ok((numbers, behind))
}

/// The numbers as a version's segments, where each is at most 2147483647.
pub fn as_segments(alloc: Global, numbers: &List<u64>) -> Result<Option<List<u32>>, Memory>
    ensures { IfOk result (λ segments. segments ≡ segments_of numbers.now) }
{
    let mut segments = List::new(alloc);
    for number in numbers.as_slice() {
        if *number > 2147483647 {
            return Ok(None);
        }
        segments.push(*number as u32)?;
    }
    Ok(Some(segments))
}

/// The version that a text is: two to four segments of at most 2147483647, joined by dots.
#[tactic(auto, using(crate::proofs::Bytes::version_in_is), unfolding(crate::specs::Numerals::version_in))]
pub fn read_version(alloc: Global, text: &str) -> Result<Option<List<u32>>, Memory>
    ensures { IfOk result (λ version. version ≡ version_in text.now) }
{
    if count_digits(text) == 0 {
        return Ok(None);
    }
    let (numbers, behind) = read_runs(alloc, text)?;
    if numbers.len() == 1 || !behind.is_empty() {
        return Ok(None);
    }
    as_segments(alloc, &numbers)
}
