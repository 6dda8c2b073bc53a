//! Replies as lines.

use pl_cases::{Answers, push_shown};
use std::alloc::Global;
use std::str;

/// Writes each reply as a line: its status, its phrase and its content. Between them stands what is
/// otherwise in its head than in that of JSON of this length.
pub fn push_replies(alloc: Global, out: &mut Answers, written: &[u8]) {
    match str::from_utf8(written) {
        Ok(text) => push_each(alloc, out, text),
        Err(_) => out.push("no text\n"),
    }
}

fn push_each(alloc: Global, out: &mut Answers, text: &str) {
    for (at, reply) in text.split("HTTP/1.1 ").enumerate() {
        if at > 0 {
            push_reply(alloc, out, reply);
        } else {
            out.push(reply);
        }
    }
}

fn push_reply(alloc: Global, out: &mut Answers, reply: &str) {
    let (head, content) = reply
        .split_once("\r\n\r\n")
        .unwrap_or((reply, "no content"));
    let (status, fields) = head.split_once("\r\n").unwrap_or((head, ""));
    out.push(status);
    if !is_json_of(fields, content.len()) {
        push_fields(alloc, out, fields);
    }
    if !content.is_empty() {
        out.push(" ");
    }
    out.line("", content)
}

fn push_fields(alloc: Global, out: &mut Answers, fields: &str) {
    if !fields.is_empty() {
        out.push(" ");
    }
    push_shown(alloc, out, fields)
}

/// Whether the fields of a head are those of JSON that is so long.
fn is_json_of(fields: &str, length: usize) -> bool {
    match fields.strip_prefix("Content-Type: application/json\r\nContent-Length: ") {
        Some(digits) => digits.parse::<usize>().unwrap_or(usize::MAX) == length,
        None => false,
    }
}
