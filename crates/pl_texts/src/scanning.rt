ghost use Rattle.std.specs.Prelude.{◌≡◌, ◌+◌, ◌-◌, ◌*◌, ◌^◌, ◌<◌, ◌≤◌, true, min, length, take};
ghost use Rattle.std.specs.Prelude.{drop, slice_index};
ghost use Rattle.std.specs.List.{prefix_len};
ghost use Rattle.std.specs.Char.{is_ascii_digit};
ghost use Rattle.pl_texts.specs.Formatting.{is_plain_number, is_plain};
ghost use Rattle.pl_reading.specs.Bytes.{begins_with, digits_of, number_of};

/// The text itself.
pub fn whole(text: &str) -> &str
    ensures { result.now ≡ text.now }
{
    text
}

/// Cuts a text behind so many bytes, of which the last is an ASCII character.
pub fn split_ascii(text: &str, count: usize) -> (&str, &str)
    requires within { count ≤ length text.now }
    requires ascii { 0 < count → slice_index text.now (count - 1) < 128 }
    ensures front { result.0.now ≡ take count text.now }
    ensures behind { result.1.now ≡ drop count text.now }
{
    text.split_at(count)
}

/// Whether the text begins with this byte.
pub fn begins_with(text: &str, byte: u8) -> bool
    ensures { result ≡ begins_with byte text.now }
{
    match text.as_bytes() {
        [first, ..] => *first == byte,
        [] => false,
    }
}

/// What stands behind the ASCII character that the text begins with.
#[tactic(auto, using(crate::proofs::Bytes::begins_with_first))]
pub fn skip_byte(text: &str, byte: u8) -> &str
    requires ascii { byte < 128 }
    requires there { begins_with byte text.now ≡ true }
    ensures { result.now ≡ drop 1 text.now }
{
    split_ascii(text, 1).1
}

/// How many decimal digits a text begins with.
pub fn count_digits(text: &str) -> usize
    ensures value { result ≡ prefix_len is_ascii_digit text.now }
    ensures within { result ≤ length text.now }
{
    let bytes = text.as_bytes();
    for (count, byte) in bytes.iter().enumerate() {
        if !byte.is_ascii_digit() {
            return count;
        }
    }
    bytes.len()
}

/// The number that the digits at the front of a text write, or usize::MAX where it is more.
pub fn leading_number(text: &str) -> usize
    ensures { result ≡ min (number_of (digits_of text.now)) (2 ^ 64 - 1) }
{
    let bytes = text.as_bytes();
    let mut number: usize = 0;
    for byte in bytes {
        if !byte.is_ascii_digit() {
            return number;
        }
        number = with_digit(number, *byte);
    }
    number
}

/// The number with one more digit behind it, or usize::MAX where that is more.
fn with_digit(number: usize, digit: u8) -> usize
    requires { 48 ≤ digit }
    ensures { result ≡ min (number * 10 + (digit - 48)) (2 ^ 64 - 1) }
{
    number
        .saturating_mul(10)
        .saturating_add(usize::from(digit - b'0'))
}

/// Whether the digits that the text begins with are a number without a leading zero.
#[tactic(auto, unfolding(crate::specs::Formatting::is_plain_number))]
pub fn is_plain_number(text: &str) -> bool
    ensures { result ≡ is_plain_number (digits_of text.now) }
{
    match text.as_bytes() {
        [b'0', b'0'..=b'9', ..] => false,
        [b'0'..=b'9', ..] => true,
        _ => false,
    }
}

/// How many bytes stand before the text's first brace, or all of them.
fn count_plain(text: &str) -> usize
    ensures value { result ≡ prefix_len is_plain text.now }
    ensures within { result ≤ length text.now }
{
    let bytes = text.as_bytes();
    for (count, byte) in bytes.iter().enumerate() {
        if *byte == b'{' || *byte == b'}' {
            return count;
        }
    }
    bytes.len()
}

/// Cuts a text before its first brace.
pub fn split_plain(text: &str) -> (&str, &str)
    ensures front { result.0.now ≡ take (prefix_len is_plain text.now) text.now }
    ensures behind { result.1.now ≡ drop (prefix_len is_plain text.now) text.now }
{
    text.split_at(count_plain(text))
}
