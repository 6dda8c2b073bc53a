//! Whole messages.

use crate::answers::Answers;
use crate::requests::put_request;
use crate::written::{put_count, put_word};
use pl_base::{Digest, Memory};
use pl_wire::{HttpFault, Message, Next, RequestFault, Routes, Waiting, next_message};
use sha2::{Digest as _, Sha256};
use std::alloc::Global;

/// Who asks: by the token `abc`, by none, or by another one.
fn caller_word(caller: &Digest) -> &'static str {
    let abc: &[u8] = b"abc";
    let none: &[u8] = b"";
    if caller.bytes == Sha256::digest(abc) {
        "abc "
    } else if caller.bytes == Sha256::digest(none) {
        "nobody "
    } else {
        "another "
    }
}

pub fn refused_word(fault: RequestFault) -> &'static str {
    match fault {
        RequestFault::RouteUnknown => "route.unknown",
        RequestFault::MethodUnknown => "method.unknown",
        RequestFault::BodyBad => "body.bad",
    }
}

fn fault_word(fault: HttpFault) -> &'static str {
    match fault {
        HttpFault::HeadBad => "bad head.bad",
        HttpFault::HeadLarge => "bad head.large",
        HttpFault::LengthMissing => "bad length.missing",
        HttpFault::BodyLarge => "bad body.large",
    }
}

fn put_message(alloc: Global, out: &mut Answers, message: &Message) {
    match message {
        Message::Refused(fault) => out.push(refused_word(*fault)),
        Message::Ask { caller, request } => {
            out.push(caller_word(caller));
            put_request(alloc, out, request)
        }
    }
}

fn put_whole(alloc: Global, out: &mut Answers, taken: usize, message: &Message, whole: usize) {
    put_message(alloc, out, message);
    if taken != whole {
        put_word(out, "taken");
        put_count(alloc, out, taken as u64);
    }
}

fn put_read(alloc: Global, out: &mut Answers, next: &Next, whole: usize) {
    match next {
        Next::Partial => out.push("partial"),
        Next::Bad(fault) => out.push(fault_word(*fault)),
        Next::Whole { taken, message } => put_whole(alloc, out, *taken, message, whole),
    }
}

/// What stands at the front of bytes, which is a message of so many bytes.
fn put_next(alloc: Global, out: &mut Answers, routes: &Routes, bytes: &[u8], whole: usize) {
    match next_message(alloc, routes, bytes) {
        Ok(next) => put_read(alloc, out, &next, whole),
        Err(_) => out.fail(),
    }
}

fn is_partial(alloc: Global, routes: &Routes, bytes: &[u8]) -> Result<bool, Memory> {
    let next = next_message(alloc, routes, bytes)?;
    Ok(matches!(&next, Next::Partial))
}

/// How many bytes are the first that are no longer partial, if that is before their end. Only the
/// last 300 lengths are tried.
fn first_read(alloc: Global, routes: &Routes, bytes: &[u8]) -> Result<Option<usize>, Memory> {
    for len in bytes.len().saturating_sub(300)..bytes.len() {
        if !is_partial(alloc, routes, bytes.split_at(len).0)? {
            return Ok(Some(len));
        }
    }
    Ok(None)
}

/// Writes where a message is read before its end.
fn put_first(alloc: Global, out: &mut Answers, routes: &Routes, bytes: &[u8]) {
    match first_read(alloc, routes, bytes) {
        Ok(Some(len)) => {
            out.push("after");
            put_count(alloc, out, len as u64);
            out.push(" ");
        }
        Ok(None) => {}
        Err(_) => out.fail(),
    }
}

/// Writes a reading, and whether another one differs.
fn put_readings(out: &mut Answers, reading: &Answers, again: &Answers) {
    match (reading.text(), again.text()) {
        (Ok(reading), Ok(again)) => {
            out.push(reading);
            if reading != again {
                out.push(" differs with a byte more");
            }
        }
        _ => out.fail(),
    }
    out.push("\n");
}

/// Writes what a message is read as, where it is read before its end, and where it is read
/// otherwise with a byte more behind it.
pub fn answer_message(alloc: Global, out: &mut Answers, routes: &Routes, bytes: Vec<u8>) {
    let mut bytes = bytes;
    let whole = bytes.len();
    put_first(alloc, out, routes, bytes.as_slice());
    let mut reading = Answers::new(alloc);
    put_next(alloc, &mut reading, routes, bytes.as_slice(), whole);
    let mut again = Answers::new(alloc);
    if bytes.push(b'P').is_err() {
        again.fail();
    }
    put_next(alloc, &mut again, routes, bytes.as_slice(), whole);
    put_readings(out, &reading, &again);
}

/// Writes the length of the first front that isn't known to begin a message only.
pub fn answer_waiting(alloc: Global, out: &mut Answers, bytes: &[u8]) {
    for len in 0..bytes.len() {
        let front = bytes.split_at(len).0;
        if !Waiting::of(front).goes_on(front) {
            out.push("not at");
            put_count(alloc, out, len as u64);
            return out.push("\n");
        }
    }
    out.push("up to the last byte\n");
}
