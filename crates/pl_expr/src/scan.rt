ghost use Rattle.std.specs.Prelude.{◌≡◌, ◌<◌, ◌≤◌, ◌+◌, true, false, length, take, drop};
ghost use Rattle.std.specs.Prelude.{slice_index, IfOk, IfNone, IfSome, OnSome, MatchOption};
ghost use Rattle.std.specs.Prelude.{option_map};
ghost use Rattle.std.specs.List.{prefix_len};
ghost use Rattle.pl_expr.specs.Grammar.{front_of, is_word, is_name_byte, begins_name, word_of};
ghost use Rattle.pl_expr.specs.Grammar.{behind_word, unquoted, is_plain};
ghost use Rattle.pl_reading.specs.Bytes.{begins_with};

use crate::numerals::split_ascii;
use pl_base::{Memory, Text};
use std::alloc::Global;

/// What a text begins with, where a primary is wanted.
#[derive(Clone, Copy, Debug, PartialEq, Eq)]
pub enum Front {
    Quote,
    Word,
    Digits,
    /// A dot and a digit.
    Fraction,
    Nothing,
}

/// What the text begins with.
#[tactic(auto, unfolding(crate::specs::Grammar::front_of))]
pub fn front_of(text: &str) -> Front
    ensures front { result ≡ front_of text.now }
    ensures quote { result ≡ Front.Quote → begins_with 39 text.now ≡ true }
{
    match text.as_bytes() {
        [b'\'', ..] => Front::Quote,
        [b'a'..=b'z' | b'A'..=b'Z' | b'_', ..] => Front::Word,
        [b'0'..=b'9' | b'-', ..] => Front::Digits,
        [b'.', b'0'..=b'9', ..] => Front::Fraction,
        _ => Front::Nothing,
    }
}

/// Whether a name begins the text: a letter or `_`.
pub fn is_word(text: &str) -> bool
    ensures { result ≡ is_word text.now }
{
    matches!(text.as_bytes(), [b'a'..=b'z' | b'A'..=b'Z' | b'_', ..])
}

/// Whether the text begins with this byte.
pub fn begins_with(text: &str, byte: u8) -> bool
    ensures { result ≡ begins_with byte text.now }
{
    match text.as_bytes() {
        [first, ..] => *first == byte,
        [] => false,
    }
}

/// What stands behind the ASCII character that the text begins with.
#[tactic(auto, using(crate::proofs::Bytes::begins_with_first))]
pub fn skip_byte(text: &str, byte: u8) -> &str
    requires ascii { byte < 128 }
    requires there { begins_with byte text.now ≡ true }
    ensures { result.now ≡ drop 1 text.now }
{
    split_ascii(text, 1).1
}

/// Cuts the text behind the letters, digits and `_` that it begins with.
pub fn split_word(text: &str) -> (&str, &str)
    ensures word { result.0.now ≡ word_of text.now }
    ensures behind { result.1.now ≡ behind_word text.now }
{
    let count = count_name_bytes(text);
    split_ascii(text, count)
}

fn count_name_bytes(text: &str) -> usize
    ensures value { result ≡ prefix_len is_name_byte text.now }
    ensures within { result ≤ length text.now }
{
    let bytes = text.as_bytes();
    for (count, byte) in bytes.iter().enumerate() {
        if !byte.is_ascii_alphanumeric() && *byte != b'_' {
            return count;
        }
    }
    bytes.len()
}

/// What stands before the text's first quote, and what stands behind it.
pub fn split_quote(text: &str) -> Option<(&str, &str)>
    ensures none { IfNone result (prefix_len is_plain text.now ≡ length text.now) }
    ensures within { OnSome result (prefix_len is_plain text.now < length text.now) }
    ensures front { IfSome result (λ parts. parts.0.now ≡ take (prefix_len is_plain text.now)
        text.now) }
    ensures behind { IfSome result (λ parts. parts.1.now ≡ drop (prefix_len is_plain text.now + 1)
        text.now) }
{
    let bytes = text.as_bytes();
    for (count, byte) in bytes.iter().enumerate() {
        if *byte == b'\'' {
            let (front, quote) = text.split_at(count);
            return Some((front, split_ascii(quote, 1).1));
        }
    }
    None
}

/// A string's text, from behind its opening quote on, and what stands behind its closing one. None
/// where it has none.
pub fn read_quoted(alloc: Global, text: &str) -> Result<Option<(Text, &str)>, Memory>
    ensures { IfOk result (λ read. option_map (λ parts. (parts.0, parts.1.now)) read ≡
        unquoted text.now) }
{
    let mut content = Text::new(alloc);
    let mut rest = text;
    while let Some((piece, after)) = split_quote(rest) {
        content.push_str(piece)?;
        if !begins_with(after, b'\'') {
            return Ok(Some((content, after)));
        }
        content.push_str("'")?;
        rest = skip_byte(after, b'\'');
    }
    Ok(None)
}

/// The text itself.
pub fn whole(text: &str) -> &str
    ensures { result.now ≡ text.now }
{
    text
}
