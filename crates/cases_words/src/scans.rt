use crate::lines::write_line;
use pl_base::{Memory, Text};
use pl_scan::Scanner;
use std::alloc::Global;

/// How many bytes came when a scanner doesn't go over them all any more, where so many come at
/// once.
fn stop_of(bytes: &[u8], piece: usize) -> Option<usize> {
    let mut scanner = Scanner::new();
    let mut len = 0;
    for _ in 0..=bytes.len() {
        if !scanner.advance(bytes.split_at(len).0) {
            return Some(len);
        }
        len = len.saturating_add(piece).min(bytes.len());
    }
    None
}

/// Whether a scanner stays in front of the last byte, as bytes come one by one, all at once, and
/// three by three without the last.
fn stays_at_the_last(bytes: &[u8]) -> bool {
    let len = bytes.len();
    let front = bytes.split_at(len.saturating_sub(1)).0;
    stop_of(bytes, 1) == Some(len)
        && stop_of(bytes, len) == Some(len)
        && stop_of(front, 3).is_none()
}

/// Writes whether a scanner stays in front of the last byte.
pub fn answer_scan(out: &mut Text, bytes: &[u8]) -> Result<(), Memory> {
    if stays_at_the_last(bytes) {
        write_line(out, "at the last byte", "")
    } else {
        write_line(out, "elsewhere", "")
    }
}

/// Writes how many bytes came when a scanner stayed, which come one by one, or `none`.
pub fn answer_stop(alloc: Global, out: &mut Text, bytes: &[u8]) -> Result<(), Memory> {
    match stop_of(bytes, 1) {
        Some(len) => {
            let digits = len.to_string(alloc)?;
            write_line(out, digits.as_str(), "")
        }
        None => write_line(out, "none", ""),
    }
}
