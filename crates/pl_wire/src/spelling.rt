//! The text of JSON values.

ghost use Rattle.std.specs.Prelude.{◌≡◌, ◌++◌, IfOk, map};
ghost use Rattle.pl_wire.specs.Json.{Adds, joined, json_text, tokens_in, tokens_of};

use json::{Token, Writer};
use pl_base::Memory;
use pl_json::{Json, Members};

/// Writes a value.
#[cycle(written)]
fn put_value(writer: &mut Writer, value: &Json) -> Result<(), Memory>
    ensures { Adds result writer.old writer.new (tokens_of value.now) }
{
    match value {
        Json::Null => writer.token(Token::Null)?,
        Json::Bool(truth) => writer.token(Token::Bool(*truth))?,
        Json::Number(number) => writer.u64(*number)?,
        Json::Text(text) => writer.string(text.as_str())?,
        Json::Array(items) => {
            writer.begin_array()?;
            put_items(writer, items.as_slice())?;
            writer.end_array()?;
        }
        Json::Object(members) => {
            writer.begin_object()?;
            put_members(writer, members)?;
            writer.end_object()?;
        }
    }
    Ok(())
}

/// Writes the items of an array.
#[cycle(written)]
fn put_items(writer: &mut Writer, items: &[Json]) -> Result<(), Memory>
    ensures { Adds result writer.old writer.new (joined (map tokens_of items.now)) }
{
    for item in items {
        put_value(writer, item)?;
    }
    Ok(())
}

/// Writes the members of an object.
#[cycle(written)]
fn put_members(writer: &mut Writer, members: &Members<Json>) -> Result<(), Memory>
    ensures { Adds result writer.old writer.new (joined (map tokens_in members.now)) }
{
    for member in members.as_slice() {
        writer.key(member.name.as_str())?;
        put_value(writer, &member.value)?;
    }
    Ok(())
}

/// The value's compact text (RFC 8259, without blanks) behind bytes, which it takes over.
pub(crate) fn spelled_behind(front: Vec<u8>, value: &Json) -> Result<Vec<u8>, Memory>
    ensures { IfOk result (λ bytes. bytes.items ≡ front.items ++ json_text value.now) }
{
    let mut writer = Writer::new(front);
    put_value(&mut writer, value)?;
    Ok(writer.into_inner())
}

/// About how many bytes the value's text has: where a byte of it is escaped it has more, and of
/// numbers some few digits count. A reply's front is as long as for so many bytes; what the reply
/// says doesn't rest on it.
#[cycle(judged)]
pub(crate) fn likely_len(value: &Json) -> usize {
    match value {
        Json::Null => 4,
        Json::Bool(_) => 4,
        Json::Number(_) => 3,
        Json::Text(text) => text.len().saturating_add(2),
        Json::Array(items) => likely_items(items.as_slice()),
        Json::Object(members) => likely_members(members),
    }
}

/// The same of an array: its brackets, and behind each item a comma.
#[cycle(judged)]
fn likely_items(items: &[Json]) -> usize {
    let mut len: usize = 1;
    for item in items {
        len = len.saturating_add(1).saturating_add(likely_len(item));
    }
    len
}

/// The same of an object: its braces, and of each member the quotes, the colon and the comma.
#[cycle(judged)]
fn likely_members(members: &Members<Json>) -> usize {
    let mut len: usize = 1;
    for member in members.as_slice() {
        len = len.saturating_add(member.name.len()).saturating_add(4);
        len = len.saturating_add(likely_len(&member.value));
    }
    len
}
