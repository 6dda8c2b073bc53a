//! Bodies of requests, each behind a head of its own.

use crate::answers::Answers;
use crate::messages::refused_word;
use crate::requests::put_request;
use pl_base::Memory;
use pl_wire::{Message, Next, next_request};
use std::alloc::Global;

/// A message of a request line's front, as `PUT /pipelines/ci`, and a content.
fn message_of(alloc: Global, front: &str, content: &[u8]) -> Result<Vec<u8>, Memory> {
    let len = content.len();
    let head = format!(in alloc;
        "{front} HTTP/1.1\r\nAuthorization: Bearer abc\r\nContent-Length: {len}\r\n\r\n"
    )?;
    let mut bytes = head.into_bytes();
    bytes.extend_from_slice(content)?;
    Ok(bytes)
}

fn put_next(alloc: Global, out: &mut Answers, next: &Next) {
    match next {
        Next::Partial => out.push("partial"),
        Next::Bad(_) => out.push("bad"),
        Next::Whole { taken: _, message } => match message {
            Message::Refused(fault) => out.push(refused_word(*fault)),
            Message::Ask { caller: _, request } => put_request(alloc, out, request),
        },
    }
    out.push("\n");
}

fn answer(alloc: Global, out: &mut Answers, bytes: &[u8]) {
    match next_request(alloc, bytes) {
        Ok(next) => put_next(alloc, out, &next),
        Err(_) => out.fail(),
    }
}

/// Writes what a content says behind the front of a request line, or why it says nothing.
pub fn answer_body(alloc: Global, out: &mut Answers, front: &str, content: &[u8]) {
    match message_of(alloc, front, content) {
        Ok(bytes) => answer(alloc, out, bytes.as_slice()),
        Err(_) => out.fail(),
    }
}
