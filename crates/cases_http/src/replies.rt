//! Replies.

use crate::answers::Answers;
use crate::jsons::sample;
use crate::written::{put_shown, write_line};
use pl_base::{FileKey, List, Memory, Shared, Text};
use pl_requests::{Body, FileText, Reply};
use pl_wire::{HttpFault, RequestFault, fault_reply, memory_reply, refused_reply, reply_bytes};
use std::alloc::Global;
use std::str;

/// Writes bytes that are a text, the control characters by their pictures.
fn put_bytes(out: &mut Answers, bytes: &[u8]) {
    put_shown(out, str::from_utf8(bytes).unwrap_or("no text"));
    out.push("\n");
}

fn put_reply(alloc: Global, out: &mut Answers, reply: &Reply) {
    match reply_bytes(alloc, reply) {
        Ok(bytes) => put_bytes(out, bytes.as_slice()),
        Err(_) => out.fail(),
    }
}

fn put_made(alloc: Global, out: &mut Answers, made: Result<Reply, Memory>) {
    match made {
        Ok(reply) => put_reply(alloc, out, &reply),
        Err(_) => out.fail(),
    }
}

fn raw(alloc: Global, status: u16, text: &str) -> Result<Reply, Memory> {
    let key = FileKey {
        repo: Text::from_str(alloc, "main")?,
        git_ref: Text::from_str(alloc, "refs/heads/main")?,
        path: Text::from_str(alloc, "/a.yml")?,
    };
    let text = List::from_slice(alloc, text.as_bytes())?;
    let body = Body::Raw(Shared::new(alloc, FileText { key, text })?);
    Ok(Reply { status, body })
}

/// A reply with the sample, or without a content.
fn plain_reply(alloc: Global, status: u16, word: &str) -> Result<Reply, Memory> {
    match word {
        "sample" => Ok(Reply::json(status, sample(alloc)?)),
        _ => Ok(Reply {
            status,
            body: Body::Empty,
        }),
    }
}

fn answer_status(alloc: Global, out: &mut Answers, status: u16, rest: &str) {
    match rest.split_once(' ') {
        Some(("raw", text)) => put_made(alloc, out, raw(alloc, status, text)),
        Some(("rule", rule)) => put_made(alloc, out, Reply::refusal(alloc, status, rule)),
        _ => put_made(alloc, out, plain_reply(alloc, status, rest)),
    }
}

fn answer_fault(alloc: Global, out: &mut Answers, fault: HttpFault) {
    put_made(alloc, out, fault_reply(alloc, fault));
}

fn answer_refused(alloc: Global, out: &mut Answers, fault: RequestFault) {
    put_made(alloc, out, refused_reply(alloc, fault));
}

/// Writes the bytes of a reply.
pub fn answer_reply(alloc: Global, out: &mut Answers, line: &str) {
    match line {
        "memory" => put_bytes(out, memory_reply()),
        "head.bad" => answer_fault(alloc, out, HttpFault::HeadBad),
        "head.large" => answer_fault(alloc, out, HttpFault::HeadLarge),
        "length.missing" => answer_fault(alloc, out, HttpFault::LengthMissing),
        "body.large" => answer_fault(alloc, out, HttpFault::BodyLarge),
        "route.unknown" => answer_refused(alloc, out, RequestFault::RouteUnknown),
        "method.unknown" => answer_refused(alloc, out, RequestFault::MethodUnknown),
        "body.bad" => answer_refused(alloc, out, RequestFault::BodyBad),
        _ => match line.split_once(' ') {
            Some((status, rest)) => { answer_status(alloc, out, status.parse().unwrap_or(0), rest) }
            None => write_line(out, "?", ""),
        },
    }
}
