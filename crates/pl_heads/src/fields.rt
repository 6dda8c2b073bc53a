//! Header fields, looked up by name.

ghost use Rattle.std.specs.Prelude.{◌≡◌, All, map, length, if◌then◌else◌};
ghost use Rattle.httparse.specs.Spans.{header_bytes, IsHeaderWithin, span_bytes};
ghost use Rattle.pl_heads.specs.Fields.{behind_bearer, same_name, token_of, values_of};
ghost use Rattle.pl_heads.specs.Found.{IsFound, after_one};

use httparse::spans::{HeaderSpan, Span};

const AUTHORIZATION: &[u8] = b"authorization";

/// What stands before a token: one space ends it.
const BEARER: &[u8] = b"Bearer ";

/// The values of the fields of one name.
#[derive(Clone, Copy, Debug)]
pub(crate) enum Found {
    Absent,
    One(Span),
    Many,
}

/// The values, with one more behind them.
fn with_one(found: Found, value: Span) -> Found
    ensures { result ≡ after_one found value }
{
    match found {
        Found::Absent => Found::One(value),
        Found::One(_) => Found::Many,
        Found::Many => Found::Many,
    }
}

/// The values, behind one field more.
fn after_field(bytes: &[u8], found: Found, field: HeaderSpan, name: &[u8]) -> Found
    requires { IsHeaderWithin (length bytes.now) field }
    ensures { result ≡ (if same_name (span_bytes bytes.now field.name) name.now then
        after_one found field.value else found) }
{
    if field.name.of(bytes).eq_ignore_ascii_case(name) {
        with_one(found, field.value)
    } else {
        found
    }
}

/// The values of the fields of a name.
pub(crate) fn look_up(bytes: &[u8], fields: &[HeaderSpan], name: &[u8]) -> Found
    requires { All (IsHeaderWithin (length bytes.now)) fields.now }
    ensures { IsFound bytes.now (values_of name.now (map (header_bytes bytes.now) fields.now))
        result }
{
    let mut found = Found::Absent;
    for field in fields {
        found = after_field(bytes, found, *field, name);
    }
    found
}

/// The bytes behind `Bearer `.
fn behind_bearer(value: &[u8]) -> &[u8]
    ensures { result.now ≡ behind_bearer value.entry.now }
{
    match value.strip_prefix(BEARER) {
        Some(token) => token,
        None => &[],
    }
}

/// The bearer token of the fields.
pub(crate) fn token_of<'b>(bytes: &'b [u8], fields: &[HeaderSpan]) -> &'b [u8]
    requires { All (IsHeaderWithin (length bytes.now)) fields.now }
    ensures { result.now ≡ token_of (map (header_bytes bytes.entry.now) fields.now) }
{
    match look_up(bytes, fields, AUTHORIZATION) {
        Found::One(value) => behind_bearer(value.of(bytes)),
        Found::Absent => &[],
        Found::Many => &[],
    }
}
