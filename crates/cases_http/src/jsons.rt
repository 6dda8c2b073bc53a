//! A JSON value with one of each kind of value in it.

use pl_base::{List, Memory};
use pl_json::{Json, Member, Members};
use std::alloc::Global;

/// One of each kind of JSON value.
fn items(alloc: Global) -> Result<List<Json>, Memory> {
    let mut items = List::new(alloc);
    items.push(Json::Null)?;
    items.push(Json::Bool(true))?;
    items.push(Json::Bool(false))?;
    items.push(Json::Number(u64::MAX))?;
    items.push(Json::Array(List::new(alloc)))?;
    items.push(Json::Object(Members::new(alloc)))?;
    Ok(items)
}

/// An object of a text with characters that want escapes, and an array of one of each kind.
pub fn sample(alloc: Global) -> Result<Members<Json>, Memory> {
    let mut members = List::new(alloc);
    members.push(Member::new(alloc, "b", Json::Array(items(alloc)?))?)?;
    let escaped = Json::text(alloc, "\"\\/\u{8}\u{c}\n\r\t\u{1}\u{1f}\u{7f}\u{e9}")?;
    members.push(Member::new(alloc, "a", escaped)?)?;
    Members::in_order(alloc, members)
}
