//! The length of the content behind a head.

ghost use Rattle.std.specs.Prelude.{◌≡◌, ◌≤◌, ◌<◌, ◌+◌, ◌*◌, ◌-◌, All, IsTrue, IsUtf8, MatchOption};
ghost use Rattle.std.specs.Prelude.{codes, map, length};
ghost use Rattle.std.specs.Char.{is_ascii_digit};
ghost use Rattle.std.specs.List.{list_all};
ghost use Rattle.httparse.specs.Spans.{header_bytes, span_bytes, IsWithin, IsHeaderWithin};
ghost use Rattle.httparse.specs.Spans.{IsRequestOf, IsRequestWithin};
ghost use Rattle.pl_heads.specs.Fields.{values_of};
ghost use Rattle.pl_heads.specs.Framing.{content_length, content_limit, is_length, length_by};
ghost use Rattle.pl_heads.specs.Framing.{length_said, value_behind, wants_length};
ghost use Rattle.pl_heads.specs.Fronts.{StandsAtFront};
ghost use Rattle.pl_heads.specs.Heads.{field_limit, head_limit};

use crate::fault::HttpFault;
use crate::fields::{Found, look_up, token_of};
use crate::front::{Front, Head};
use httparse::spans::{HeaderSpan, RequestSpans, Span};
use std::str;

/// The most bytes of content.
const CONTENT_LIMIT: usize = 262_144;

const TRANSFER_ENCODING: &[u8] = b"transfer-encoding";

const CONTENT_LENGTH: &[u8] = b"content-length";

const PUT: &[u8] = b"PUT";

const POST: &[u8] = b"POST";

/// Whether a method announces its content.
fn wants_length(method: &[u8]) -> bool
    ensures { result ≡ wants_length method.now }
{
    method == PUT || method == POST
}

/// Whether a value is 1 to 10 digits.
fn is_length(value: &[u8]) -> bool
    ensures { result ≡ is_length value.now }
{
    if value.is_empty() || value.len() > 10 {
        return false;
    }
    are_digits(value)
}

fn are_digits(value: &[u8]) -> bool
    ensures { result ≡ list_all is_ascii_digit value.now }
{
    value.iter().all(|byte| byte.is_ascii_digit())
}

/// What digits say, or None where it is over the limit.
fn value_within(digits: &[u8]) -> Option<usize>
    requires { IsTrue (list_all is_ascii_digit digits.now) }
    ensures { MatchOption result (content_limit < value_behind 0 digits.now)
        (λ value. (value ≡ value_behind 0 digits.now) × (value ≤ content_limit)) }
{
    let mut value = 0;
    for digit in digits {
        value = 10 * value + digit.saturating_sub(b'0') as usize;
        if value > CONTENT_LIMIT {
            return None;
        }
    }
    Some(value)
}

/// The length that a value says.
fn length_said(value: &[u8]) -> Result<usize, HttpFault>
    ensures { result ≡ length_said value.now }
{
    if !is_length(value) {
        return Err(HttpFault::HeadBad);
    }
    match value_within(value) {
        Some(length) => Ok(length),
        None => Err(HttpFault::BodyLarge),
    }
}

/// The length, by the values of Content-Length.
fn length_by(bytes: &[u8], fields: &[HeaderSpan], method: &[u8]) -> Result<usize, HttpFault>
    requires { All (IsHeaderWithin (length bytes.now)) fields.now }
    ensures { result ≡ length_by (wants_length method.now)
        (values_of (codes "content-length") (map (header_bytes bytes.now) fields.now)) }
{
    match look_up(bytes, fields, CONTENT_LENGTH) {
        Found::One(value) => length_said(value.of(bytes)),
        Found::Many => Err(HttpFault::HeadBad),
        Found::Absent => {
            if wants_length(method) {
                Err(HttpFault::LengthMissing)
            } else {
                Ok(0)
            }
        }
    }
}

/// The length of the content of a request with this method and these fields.
fn content_length(bytes: &[u8], fields: &[HeaderSpan], method: &[u8]) -> Result<usize, HttpFault>
    requires { All (IsHeaderWithin (length bytes.now)) fields.now }
    ensures { result ≡ content_length method.now (map (header_bytes bytes.now) fields.now) }
{
    match look_up(bytes, fields, TRANSFER_ENCODING) {
        Found::Absent => length_by(bytes, fields, method),
        Found::Many | Found::One(_) => Err(HttpFault::HeadBad),
    }
}

/// The head that these spans cover, or its fault.
pub(crate) fn head_of<'b>(bytes: &'b [u8], headers: &[HeaderSpan], spans: RequestSpans) -> Front<'b>
    requires room { length headers.now ≡ field_limit }
    requires short { length bytes.now ≤ head_limit }
    requires within { IsRequestWithin bytes.now headers.now spans }
    requires covers { IsRequestOf bytes.now headers.now spans }
    ensures { StandsAtFront bytes.entry.now result }
{
    let fields = headers.split_at(spans.headers).0;
    let method = spans.method.of(bytes);
    match content_length(bytes, fields, method) {
        Err(fault) => Front::Bad(fault),
        Ok(content) => Front::Whole(Head {
            method,
            target: target_of(bytes, spans.path),
            token: token_of(bytes, fields),
            len: spans.len,
            content,
        }),
    }
}

/// A target, which is UTF-8.
fn target_of(bytes: &[u8], span: Span) -> &str
    requires within { IsWithin (length bytes.now) span }
    requires text { IsUtf8 (span_bytes bytes.now span) }
    ensures { result.now ≡ span_bytes bytes.entry.now span }
{
    match str::from_utf8(span.of(bytes)) {
        Ok(target) => target,
        Err(_) => unreachable!(),
    }
}
