use crate::members::{Member, Members};
use pl_base::{List, Memory, Text};
use std::alloc::Global;

/// A JSON value (RFC 8259). Its numbers are the whole numbers from 0 to 2^64 - 1, and its objects
/// have each name once, in byte order.
#[cycle(json)]
#[derive(Debug, Drop)]
pub enum Json {
    Null,
    Bool(bool),
    Number(u64),
    Text(Text),
    Array(List<Json>),
    Object(Members<Json>),
}

impl Json {
    ghost use Rattle.std.specs.Prelude.{◌≡◌, IfOk};
    ghost use Rattle.pl_json.specs.Objects.{object};
    ghost use Rattle.pl_json.specs.declared.json.Json.TheVariants as json;

    /// A text of one's own with these characters.
    pub fn text(alloc: Global, text: &str) -> Result<Json, Memory>
        ensures { IfOk result (λ made. made ≡ json.Text text.now) }
    {
        Ok(Json::Text(Text::from_str(alloc, text)?))
    }

    /// The object of these members; of one name the last counts.
    pub fn object(alloc: Global, members: List<Member<Json>>) -> Result<Json, Memory>
        ensures { IfOk result (λ made. made ≡ object members) }
    {
        Ok(Json::Object(Members::in_order(alloc, members)?))
    }
}
