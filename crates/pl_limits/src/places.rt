//! Texts that may stand twice, told by the places of their hashes.

ghost use Rattle.std.specs.Prelude.{◌≡◌, ◌<◌, ◌^◌, IfOk, length, map};
ghost use Rattle.std.specs.Option.{option_map};
ghost use Rattle.pl_limits.specs.Limits.{are_distinct, same_text};
ghost use Rattle.pl_limits.specs.Places.{are_apart, hash, mixed, numbered, place, word};

use pl_base::{Memory, Text};
use std::alloc::Global;

/// A hash with a number of four bytes more.
#[inline(always)]
fn mixed(told: u64, more: u64) -> u64
    requires told { told < 2 ^ 32 }
    requires more { more < 2 ^ 32 }
    ensures value { result ≡ mixed told more }
    ensures short { result < 2 ^ 32 }
{
    (16_777_619 * told + more) % 4_294_967_296
}

/// Four bytes as one number.
#[inline(always)]
fn word(a: u8, b: u8, c: u8, d: u8) -> u64
    ensures value { result ≡ word a b c d }
    ensures short { result < 2 ^ 32 }
{
    a as u64 + 256 * b as u64 + 65_536 * c as u64 + 16_777_216 * d as u64
}

/// A text's hash: four bytes at a time, and those that are left as one number.
fn hash(text: &str) -> u64
    ensures value { result ≡ hash text.now }
    ensures short { result < 2 ^ 32 }
{
    let mut left = text.as_bytes();
    let mut told = 0;
    while let [a, b, c, d, rest @ ..] = left {
        told = mixed(told, word(*a, *b, *c, *d));
        left = rest;
    }
    match left {
        [a] => mixed(told, word(*a, 0, 0, 0)),
        [a, b] => mixed(told, word(*a, *b, 0, 0)),
        [a, b, c] => mixed(told, word(*a, *b, *c, 0)),
        _ => told,
    }
}

/// The place of a text in a table of so many.
fn place(text: &str, room: usize) -> usize
    requires { 0 < room }
    ensures value { result ≡ place room text.now }
    ensures within { result < room }
{
    hash(text) as usize % room
}

/// The text of a number from 1 on; 0 is none.
#[inline(always)]
fn numbered<'a>(texts: &[&'a str], number: u16) -> Option<&'a str>
    ensures { result ≡ numbered texts.now number }
{
    if number == 0 {
        return None;
    }
    match texts.get(number as usize - 1) {
        Some(text) => Some(*text),
        None => None,
    }
}

/// Texts as std's string slices, in their order.
pub(crate) fn slices<'a>(alloc: Global, texts: &'a [Text]) -> Result<Vec<&'a str>, Memory>
    ensures { IfOk result (λ all. map (λ text. text.now) all.items ≡ texts.now) }
{
    let mut all = Vec::new(alloc);
    all.resize(texts.len(), "")?;
    for (at, text) in texts.iter().enumerate() {
        all[at] = text.as_str();
    }
    Ok(all)
}

/// Those of the texts whose places another text had before them, in their order, or none where a
/// text stood at its place before. Of all of them none stands twice where none of those does. The
/// places keep the numbers of texts, which have two bytes.
pub(crate) fn displaced<'a>(
    alloc: Global,
    texts: &[&'a str],
) -> Result<Option<Vec<&'a str>>, Memory>
    requires { length texts.now < 2 ^ 16 }
    ensures { IfOk result (λ found.
        are_apart (option_map (λ rest. map (λ text. text.now) rest.items) found) ≡
        are_distinct same_text (map (λ text. text.now) texts.now)) }
{
    let room = 5 * texts.len() + 1;
    let mut places: Vec<u16> = Vec::new(alloc);
    places.resize(room, 0)?;
    let mut rest = Vec::new(alloc);
    for (at, text) in texts.iter().enumerate() {
        let here = place(*text, room);
        match numbered(texts, places[here]) {
            None => places[here] = at as u16 + 1,
            Some(first) => {
                if first == *text {
                    return Ok(None);
                }
                rest.push(*text)?;
            }
        }
    }
    Ok(Some(rest))
}
