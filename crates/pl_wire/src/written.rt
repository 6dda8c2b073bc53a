ghost use Rattle.std.specs.Prelude.{◌≡◌, ◌≤◌, ◌++◌, codes, drop, length, string_bytes, IfOk};
ghost use Rattle.pl_requests.specs.Replies.{refusal};
ghost use Rattle.pl_wire.specs.Message.{crlf};
ghost use Rattle.pl_wire.specs.Refusals.{reply_to_fault, reply_to_refused};
ghost use Rattle.pl_wire.specs.Json.{json_text};
ghost use Rattle.pl_wire.specs.Written.{front, kind_line, length_line, phrase, status_line};
ghost use Rattle.pl_wire.specs.Written.{with_headers, written};

use crate::message::RequestFault;
use crate::spelling::{likely_len, spelled_behind};
use pl_base::{Bytes, List, Memory};
use pl_heads::HttpFault;
use pl_json::Json;
use pl_requests::{Body, Reply};
use std::alloc::Global;

/// The reply where memory is wanting: 507, `memory`.
pub const MEMORY_REPLY: &[u8] =
    b"HTTP/1.1 507 Insufficient Storage\r\nContent-Type: application/json\r\n\
    Content-Length: 17\r\n\r\n{\"rule\":\"memory\"}";

/// The reply where memory is wanting, as it is sent: 507, `memory`. It takes no memory.
pub fn memory_reply() -> &'static [u8]
    ensures { result.now ≡ written (refusal 507 (codes "memory")) }
{
    MEMORY_REPLY
}

/// The reason phrase of a status (RFC 9110, section 15).
fn phrase(status: u16) -> &'static str
    ensures { result.now ≡ phrase status }
{
    match status {
        200 => "OK",
        201 => "Created",
        204 => "No Content",
        400 => "Bad Request",
        401 => "Unauthorized",
        403 => "Forbidden",
        404 => "Not Found",
        405 => "Method Not Allowed",
        409 => "Conflict",
        411 => "Length Required",
        413 => "Payload Too Large",
        422 => "Unprocessable Entity",
        431 => "Request Header Fields Too Large",
        503 => "Service Unavailable",
        507 => "Insufficient Storage",
        _ => "",
    }
}

/// The status line, with its line end.
fn status_text(alloc: Global, status: u16) -> Result<String, Memory>
    ensures { IfOk result (λ text. string_bytes text ≡ status_line status) }
{
    let reason = phrase(status);
    Ok(format!(in alloc; "HTTP/1.1 {status} {reason}\r\n")?)
}

/// The line of the content's type.
fn kind_text(alloc: Global, kind: &str) -> Result<String, Memory>
    ensures { IfOk result (λ text. string_bytes text ≡ kind_line kind.now) }
{
    Ok(format!(in alloc; "Content-Type: {kind}\r\n")?)
}

/// The line of the content's length.
fn length_text(alloc: Global, len: usize) -> Result<String, Memory>
    ensures { IfOk result (λ text. string_bytes text ≡ length_line len) }
{
    Ok(format!(in alloc; "Content-Length: {len}\r\n")?)
}

/// All that stands before a content of so many bytes: the status line, the content's type and
/// length, and an empty line.
fn front_text(alloc: Global, status: u16, kind: &str, len: usize) -> Result<String, Memory>
    ensures { IfOk result (λ text. string_bytes text ≡ front status kind.now len) }
{
    let mut head = status_text(alloc, status)?;
    let kind = kind_text(alloc, kind)?;
    head.push_str(kind.as_str())?;
    let len = length_text(alloc, len)?;
    head.push_str(len.as_str())?;
    head.push_str("\r\n")?;
    Ok(head)
}

/// A front, and a content behind it.
fn joined(front: String, content: &[u8]) -> Result<Bytes, Memory>
    ensures { IfOk result (λ bytes. bytes ≡ string_bytes front ++ content.now) }
{
    let mut bytes = front.into_bytes();
    bytes.extend_from_slice(content)?;
    Ok(List::from_vec(bytes))
}

/// A reply's bytes with this kind of content.
fn with_content(alloc: Global, status: u16, kind: &str, content: &[u8]) -> Result<Bytes, Memory>
    ensures { IfOk result (λ bytes. bytes ≡ status_line status ++
        with_headers kind.now content.now) }
{
    let front = front_text(alloc, status, kind, content.len())?;
    joined(front, content)
}

/// Puts a front in the place of as many first bytes.
fn put_over(bytes: &mut Vec<u8>, front: &[u8])
    requires { length front.now ≤ length bytes.old.items }
    ensures { bytes.new.items ≡ front.now ++ drop (length front.now) bytes.old.items }
{
    let (first, _) = bytes.as_mut_slice().split_at_mut(front.len());
    first.copy_from_slice(front);
}

/// A reply's bytes with a JSON value, whose text is spelled behind the front for the length that it
/// is likely to have; then the front is put right. A front of another length takes another spelling
/// of the text, so that nothing is moved.
fn with_json(alloc: Global, status: u16, value: &Json) -> Result<Bytes, Memory>
    ensures { IfOk result (λ bytes. bytes ≡ status_line status ++
        with_headers (codes "application/json") (json_text value.now)) }
{
    let likely = front_text(alloc, status, "application/json", likely_len(value))?;
    let at = likely.len();
    let mut bytes = spelled_behind(likely.into_bytes(), value)?;
    let front = front_text(alloc, status, "application/json", bytes.len() - at)?;
    if front.len() == at {
        put_over(&mut bytes, front.as_bytes());
        return Ok(List::from_vec(bytes));
    }
    drop(bytes);
    Ok(List::from_vec(spelled_behind(front.into_bytes(), value)?))
}

/// A status line and an empty line.
fn without_content(alloc: Global, status: u16) -> Result<Bytes, Memory>
    ensures { IfOk result (λ bytes. bytes ≡ status_line status ++ crlf) }
{
    let mut head = status_text(alloc, status)?;
    head.push_str("\r\n")?;
    Ok(List::from_vec(head.into_bytes()))
}

/// A reply as it is sent (RFC 9112, section 4): the status line, the content's type and length, an
/// empty line and the content. JSON is compact, with the names of an object in byte order. An empty
/// body, as at 204, has the status line and an empty line alone.
#[tactic(auto, unfolding(crate::specs::Written::written))]
pub fn reply_bytes(alloc: Global, reply: &Reply) -> Result<Bytes, Memory>
    ensures { IfOk result (λ bytes. bytes ≡ written reply.now) }
{
    match &reply.body {
        Body::Empty => without_content(alloc, reply.status),
        Body::Json(json) => with_json(alloc, reply.status, json),
        Body::Raw(file) => { with_content(alloc, reply.status, "text/plain", file.text.as_slice()) }
    }
}

/// The reply to bytes that are no message, after which the link ends: 400 `head.bad`, 431
/// `head.large`, 411 `length.missing` or 413 `body.large`.
pub fn fault_reply(alloc: Global, fault: HttpFault) -> Result<Reply, Memory>
    ensures { IfOk result (λ reply. reply ≡ reply_to_fault fault) }
{
    match fault {
        HttpFault::HeadBad => Reply::refusal(alloc, 400, "head.bad"),
        HttpFault::HeadLarge => Reply::refusal(alloc, 431, "head.large"),
        HttpFault::LengthMissing => Reply::refusal(alloc, 411, "length.missing"),
        HttpFault::BodyLarge => Reply::refusal(alloc, 413, "body.large"),
    }
}

/// The reply to a message that is no request: 404 `route.unknown`, 405 `method.unknown` or 400
/// `body.bad`.
pub fn refused_reply(alloc: Global, fault: RequestFault) -> Result<Reply, Memory>
    ensures { IfOk result (λ reply. reply ≡ reply_to_refused fault) }
{
    match fault {
        RequestFault::RouteUnknown => Reply::refusal(alloc, 404, "route.unknown"),
        RequestFault::MethodUnknown => Reply::refusal(alloc, 405, "method.unknown"),
        RequestFault::BodyBad => Reply::refusal(alloc, 400, "body.bad"),
    }
}
