ghost use Rattle.std.specs.Prelude.{◌≡◌, ◌<◌, ◌≤◌, ◌+◌, length};
ghost use Rattle.pl_line.specs.Characters.{all_of};
ghost use Rattle.pl_line.specs.Quoted as spec;

use crate::characters::Characters;
use crate::piece::Piece;

/// The character that a backslash before this one spells.
#[tactic(auto, unfolding(crate::specs::Quoted::named))]
fn named(character: char) -> Option<char>
    ensures { result ≡ spec.named character }
{
    match character {
        '0' => Some('\0'),
        'a' => Some('\u{7}'),
        'b' => Some('\u{8}'),
        't' => Some('\t'),
        'n' => Some('\n'),
        'v' => Some('\u{b}'),
        'f' => Some('\u{c}'),
        'r' => Some('\r'),
        'e' => Some('\u{1b}'),
        ' ' => Some(' '),
        '"' => Some('"'),
        '/' => Some('/'),
        '\\' => Some('\\'),
        'N' => Some('\u{85}'),
        '_' => Some('\u{a0}'),
        'L' => Some('\u{2028}'),
        'P' => Some('\u{2029}'),
        _ => None,
    }
}

/// The value of hexadecimal digits, or None where one is no digit.
#[tactic(auto, using(crate::proofs::Laws::Quotes::hex_step, crate::proofs::Laws::Quotes::hex_fits))]
fn hex_value(digits: Characters) -> Option<u32>
    requires { length (all_of digits) ≤ 8 }
    ensures { result ≡ spec.hex_value 0 (all_of digits.entry) }
{
    let mut value = 0;
    let mut rest = digits;
    while let Some(c) = rest.next() {
        value = 16 * value + c.to_digit(16)?;
    }
    Some(value)
}

/// An escape of so many characters, where it spells one.
fn spelled(len: usize, character: Option<char>) -> Piece
    requires { 0 < len }
    ensures value { result ≡ spec.spelled len character }
    ensures within { spec.Takes len result }
{
    match character {
        Some(character) => Piece::Character(character, len),
        None => Piece::BadEscape,
    }
}

/// The Unicode scalar value of these hexadecimal digits.
fn scalar(digits: Characters) -> Option<char>
    requires { length (all_of digits) ≤ 8 }
    ensures { result ≡ spec.scalar_only (spec.hex_value 0 (all_of digits.entry)) }
{
    let value = hex_value(digits)?;
    char::from_u32(value)
}

/// What an escape of so many hexadecimal digits spells, the first of which stands first.
#[tactic(auto, unfolding(crate::specs::Quoted::numbered))]
fn numbered(digits: usize, text: Characters) -> Piece
    requires { digits ≤ 8 }
    ensures value { result ≡ spec.numbered digits (all_of text.entry) }
    ensures within { spec.Takes (length (all_of text.entry) + 2) result }
{
    if text.len() < digits {
        return Piece::BadEscape;
    }
    spelled(digits + 2, scalar(text.front(digits)))
}

/// What a backslash before this text spells.
#[tactic(auto, unfolding(crate::specs::Quoted::escape))]
pub(crate) fn escape(text: Characters) -> Piece
    ensures value { result ≡ spec.escape (all_of text.entry) }
    ensures within { spec.Takes (length (all_of text.entry) + 1) result }
{
    let mut rest = text;
    let Some(first) = rest.next() else {
        return Piece::BadEscape;
    };
    match first {
        'x' => numbered(2, rest),
        'u' => numbered(4, rest),
        'U' => numbered(8, rest),
        c => spelled(2, named(c)),
    }
}
