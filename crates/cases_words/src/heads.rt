use crate::lines::write_line;
use pl_base::{Memory, Text};
use pl_heads::{Front, Head, read_head};
use std::alloc::Global;
use std::str;

/// A head as the cases write it: its content's length, its token, its method and its target.
fn shown_head(alloc: Global, head: &Head<'_>) -> Result<Text, Memory> {
    let token = str::from_utf8(head.token).unwrap_or("no text");
    let method = str::from_utf8(head.method).unwrap_or("no text");
    let content = head.content;
    let target = head.target;
    let shown = format!(in alloc; "{content} [{token}] {method} {target}")?;
    Ok(Text::from_string(shown))
}

/// A reading, as the cases write it.
fn shown(alloc: Global, bytes: &[u8]) -> Result<Text, Memory> {
    match read_head(bytes) {
        Front::Partial => Text::from_str(alloc, "Partial"),
        Front::Bad(fault) => Ok(Text::from_string(format!(in alloc; "{fault:?}")?)),
        Front::Whole(head) => shown_head(alloc, &head),
    }
}

/// The first length at which the bytes are read, if they are before their end.
fn first_read(bytes: &[u8]) -> Option<usize> {
    for len in 0..bytes.len() {
        if !matches!(read_head(bytes.split_at(len).0), Front::Partial) {
            return Some(len);
        }
    }
    None
}

/// Writes ` differs` where the reading is another one once a byte more stands behind the bytes.
fn push_difference(
    alloc: Global,
    out: &mut Text,
    bytes: &mut Vec<u8>,
    reading: &Text,
) -> Result<(), Memory> {
    bytes.push(b'\n')?;
    if shown(alloc, bytes.as_slice())? != *reading {
        out.push_str(" differs with a byte more")?;
    }
    Ok(())
}

/// Writes the reading of a head. Behind it stands where it isn't Partial before the last byte, or
/// is another one with one or two bytes more.
pub fn answer_head(alloc: Global, out: &mut Text, bytes: Vec<u8>) -> Result<(), Memory> {
    let mut bytes = bytes;
    if first_read(bytes.as_slice()).is_some() {
        out.push_str("before its last byte ")?;
    }
    let reading = shown(alloc, bytes.as_slice())?;
    out.push_str(reading.as_str())?;
    push_difference(alloc, out, &mut bytes, &reading)?;
    push_difference(alloc, out, &mut bytes, &reading)?;
    out.push_str("\n")
}

/// Where, of the last ten places and the end, a reading is no longer Partial.
fn decided_at(bytes: &[u8]) -> usize {
    for len in bytes.len().saturating_sub(10)..bytes.len() {
        if !matches!(read_head(bytes.split_at(len).0), Front::Partial) {
            return len;
        }
    }
    bytes.len()
}

/// The first ten characters of a text.
fn first_ten(alloc: Global, text: &str) -> Result<Text, Memory> {
    let ten: String = text.chars().take(10).collect(alloc)?;
    Ok(Text::from_string(ten))
}

/// Writes after how many bytes a head is read, and the first ten characters of its reading.
pub fn answer_limit(alloc: Global, out: &mut Text, bytes: &[u8]) -> Result<(), Memory> {
    let place = decided_at(bytes).min(bytes.len());
    let digits = place.to_string(alloc)?;
    out.push_str(digits.as_str())?;
    let reading = shown(alloc, bytes.split_at(place).0)?;
    write_line(out, " ", first_ten(alloc, reading.as_str())?.as_str())
}
