//! Replies that several requests get (RFC 9110, section 15).

ghost use Rattle.std.specs.Prelude.{◌≡◌, IfOk};
ghost use Rattle.pl_answers.specs.Answers as spec;

use pl_base::Memory;
use pl_json::{Json, Members};
use pl_refusals::number;
use pl_requests::{Body, Reply};
use std::alloc::Global;

/// A reply that holds a JSON value. It takes no memory.
pub fn json_reply(status: u16, told: Json) -> Reply
    ensures { result ≡ spec.with_json status told }
{
    Reply {
        status,
        body: Body::Json(told),
    }
}

/// 200 with the empty object: it was done. It takes no memory.
pub fn empty_object(alloc: Global) -> Reply
    ensures { result ≡ spec.empty_object }
{
    Reply::json(200, Members::new(alloc))
}

/// An object of one number. Memory where memory is wanting.
pub fn numbered(alloc: Global, status: u16, name: &str, value: u64) -> Result<Reply, Memory>
    ensures { IfOk result (λ reply. reply ≡ spec.numbered status name.now value) }
{
    let members = Members::one(alloc, number(alloc, name, value)?)?;
    Ok(Reply::json(status, members))
}

/// 204: there is nothing to tell. It takes no memory.
pub fn no_content() -> Reply
    ensures { result ≡ spec.no_content }
{
    Reply {
        status: 204,
        body: Body::Empty,
    }
}
