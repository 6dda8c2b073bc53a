//! Sessions of a service that is closed and opened again behind each message.

use crate::asked::words;
use crate::message::{Moments, Session};
use crate::outside::outside_of;
use pl_base::{List, Memory, Row};
use pl_commands::run;
use pl_keeper::Keeper;
use std::alloc::Global;
use std::sync::Wait;
use std::thread::Threads;

/// Answers one message over rows: the status, and the rows that the store has then.
fn answer_one<R: Threads + Wait + Sync>(
    rt: &R,
    alloc: Global,
    message: &[u8],
    moments: Moments,
    rows: List<Row>,
    written: &mut Vec<u8>,
) -> Result<(u8, List<Row>), Memory> {
    let mut outside = outside_of(alloc, message, moments, rows)?;
    let words = words(alloc, &["--store", "rows"])?;
    let code = run(rt, alloc, words.as_slice(), &mut outside).code();
    written.extend_from_slice(outside.ends.sink.bytes())?;
    match outside.back.take() {
        Some(mut store) => match store.rows(alloc) {
            Ok(rows) => Ok((code, rows)),
            Err(_) => Err(Memory),
        },
        None => Err(Memory),
    }
}

/// Whether the messages of a session are answered with these bytes and end with this status, where
/// the service is closed and opened again behind each of them.
pub fn answered_again<R: Threads + Wait + Sync>(
    rt: &R,
    alloc: Global,
    session: &Session,
    code: u8,
    wanted: &[u8],
) -> Result<bool, Memory> {
    let mut written = Vec::new(alloc);
    let mut rows = List::new(alloc);
    let mut last = code;
    let mut begin = 0;
    for (at, end) in session.ends.as_slice().iter().enumerate() {
        let end = (*end).min(session.input.len());
        let message = session.input.as_slice().get(begin..end).unwrap_or(&[]);
        let moments = session.moments.at(alloc, at)?;
        let (told, behind) = answer_one(rt, alloc, message, moments, rows, &mut written)?;
        last = told;
        rows = behind;
        begin = end;
    }
    Ok(last == code && written.as_slice() == wanted)
}
