//! The places that one byte more leads to.

ghost use Rattle.std.specs.Prelude.{◌≤◌, ◌<◌, ◌∷◌, [], ◌++◌, IfSome, IsTrue, IsUtf8, length};
ghost use Rattle.pl_scan.specs.Places.{EndsAt};
ghost use Rattle.pl_scan.specs.Scans.{Leads};
ghost use Rattle.pl_scan.specs.declared.place.Place.TheVariants as place;

use crate::place::Place;
use httparse::{is_header_name_token, is_header_value_token, is_method_token, is_uri_token};
use pl_heads::FIELD_LIMIT;
use std::str;

/// What stands before the version's last digit.
const VERSION: &[u8] = b"HTTP/1.";

fn after_empty_lines(byte: u8) -> Option<Place>
    ensures { IfSome result (Leads place.EmptyLines byte) }
{
    match byte {
        b'\n' => Some(Place::EmptyLines),
        b'\r' => Some(Place::EmptyLineReturn),
        _ if is_method_token(byte) => Some(Place::Method),
        _ => None,
    }
}

fn after_empty_line_return(byte: u8) -> Option<Place>
    ensures { IfSome result (Leads place.EmptyLineReturn byte) }
{
    match byte {
        b'\n' => Some(Place::EmptyLines),
        _ => None,
    }
}

// The target begins behind the bytes that were seen and the space.
fn after_method(seen: &[u8], byte: u8) -> Option<Place>
    requires { EndsAt place.Method seen.now }
    ensures { IfSome result (λ to. EndsAt to (seen.now ++ byte ∷ [])) }
{
    match byte {
        b' ' => Some(Place::Target {
            start: seen.len() + 1,
        }),
        _ if is_method_token(byte) => Some(Place::Method),
        _ => None,
    }
}

// Whether bytes are a target: not empty, and UTF-8.
fn is_text(target: &[u8]) -> bool
    ensures { IsTrue result → (0 < length target.now) × IsUtf8 target.now }
{
    !target.is_empty() && str::from_utf8(target).is_ok()
}

fn after_target(start: usize, seen: &[u8], byte: u8) -> Option<Place>
    requires { EndsAt (place.Target start) seen.now }
    ensures { IfSome result (λ to. EndsAt to (seen.now ++ byte ∷ [])) }
{
    match byte {
        b' ' if is_text(seen.split_at(start).1) => Some(Place::Version { count: 0 }),
        _ if is_uri_token(byte) => Some(Place::Target { start }),
        _ => None,
    }
}

fn after_version(count: usize, byte: u8) -> Option<Place>
    requires { count ≤ 7 }
    ensures { IfSome result (Leads (place.Version count) byte) }
{
    match VERSION.get(count) {
        Some(next) if *next == byte => Some(Place::Version { count: count + 1 }),
        Some(_) => None,
        None => after_version_dot(byte),
    }
}

fn after_version_dot(byte: u8) -> Option<Place>
    ensures { IfSome result (Leads (place.Version 7) byte) }
{
    match byte {
        b'0' => Some(Place::StartLine),
        b'1' => Some(Place::StartLine),
        _ => None,
    }
}

fn after_start_line(byte: u8) -> Option<Place>
    ensures { IfSome result (Leads place.StartLine byte) }
{
    match byte {
        b'\n' => Some(Place::Lines { fields: 0 }),
        b'\r' => Some(Place::StartLineReturn),
        _ => None,
    }
}

fn after_start_line_return(byte: u8) -> Option<Place>
    ensures { IfSome result (Leads place.StartLineReturn byte) }
{
    match byte {
        b'\n' => Some(Place::Lines { fields: 0 }),
        _ => None,
    }
}

fn after_lines(fields: usize, byte: u8) -> Option<Place>
    ensures { IfSome result (Leads (place.Lines fields) byte) }
{
    match byte {
        b'\r' => Some(Place::LastReturn { fields }),
        _ if is_header_name_token(byte) => Some(Place::Name { fields }),
        _ => None,
    }
}

fn after_name(fields: usize, byte: u8) -> Option<Place>
    ensures { IfSome result (Leads (place.Name fields) byte) }
{
    match byte {
        b':' => Some(Place::Value { fields }),
        _ if is_header_name_token(byte) => Some(Place::Name { fields }),
        _ => None,
    }
}

fn after_value(fields: usize, byte: u8) -> Option<Place>
    ensures { IfSome result (Leads (place.Value fields) byte) }
{
    match byte {
        b'\n' if fields < FIELD_LIMIT => Some(Place::Lines { fields: fields + 1 }),
        b'\r' => Some(Place::ValueReturn { fields }),
        _ if is_header_value_token(byte) => Some(Place::Value { fields }),
        _ => None,
    }
}

fn after_value_return(fields: usize, byte: u8) -> Option<Place>
    ensures { IfSome result (Leads (place.ValueReturn fields) byte) }
{
    match byte {
        b'\n' if fields < FIELD_LIMIT => Some(Place::Lines { fields: fields + 1 }),
        _ => None,
    }
}

/// The place that the byte behind the bytes that were seen leads to, and None where no place goes
/// on with it: then the head is whole, or no head.
pub(crate) fn after_byte(place: Place, seen: &[u8], byte: u8) -> Option<Place>
    requires { EndsAt place seen.now }
    ensures { IfSome result (λ to. EndsAt to (seen.now ++ byte ∷ [])) }
{
    match place {
        Place::EmptyLines => after_empty_lines(byte),
        Place::EmptyLineReturn => after_empty_line_return(byte),
        Place::Method => after_method(seen, byte),
        Place::Target { start } => after_target(start, seen, byte),
        Place::Version { count } => after_version(count, byte),
        Place::StartLine => after_start_line(byte),
        Place::StartLineReturn => after_start_line_return(byte),
        Place::Lines { fields } => after_lines(fields, byte),
        Place::LastReturn { fields: _ } => None,
        Place::Name { fields } => after_name(fields, byte),
        Place::Value { fields } => after_value(fields, byte),
        Place::ValueReturn { fields } => after_value_return(fields, byte),
    }
}
