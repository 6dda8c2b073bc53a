ghost use Rattle.std.specs.Prelude.{◌≡◌, IfOk};
ghost use Rattle.sha2.specs.Sha256.{sha256};
ghost use Rattle.pl_heads.specs.Fronts.{StandsAtFront};
ghost use Rattle.pl_heads.specs.declared.front.Front.TheVariants as front;
ghost use Rattle.pl_wire.specs.Message.{OneAnswer, OneReading, MessagesStay, StandsFirst};
ghost use Rattle.pl_wire.specs.Message.{RequestsAreWellFormed, message_by, told};

use crate::asked::asked;
use crate::message::{Message, Next, RequestFault};
use pl_base::{Digest, Memory};
use pl_heads::{Front, Head, read_head};
use pl_requests::Request;
use pl_routes::Routes;
use sha2::{Digest as _, Sha256};
use std::alloc::Global;

/// The digest of a token.
fn digest_of(token: &[u8]) -> Digest
    ensures { result.bytes ≡ sha256 token.now }
{
    Digest {
        bytes: Sha256::digest(token),
    }
}

/// The message of a caller who asks for something, or for nothing that there is.
fn message_by(caller: Digest, asked: Result<Request, RequestFault>) -> Message
    ensures { result ≡ message_by caller asked }
{
    match asked {
        Ok(request) => Message::Ask { caller, request },
        Err(fault) => Message::Refused(fault),
    }
}

/// The message of a head and its content.
fn message_of(
    alloc: Global,
    routes: &Routes,
    head: &Head<'_>,
    content: &[u8],
) -> Result<Message, Memory>
    ensures { IfOk result (λ message. message
        ≡ told head.now.token.now head.now.method.now head.now.target.now content.now) }
{
    let asked = asked(alloc, routes, head.method, head.target, content)?;
    Ok(message_by(digest_of(head.token), asked))
}

/// The message with this head, where the content is whole.
fn with_head(alloc: Global, routes: &Routes, bytes: &[u8], head: Head<'_>) -> Result<Next, Memory>
    requires { StandsAtFront bytes.now (front.Whole head) }
    ensures { IfOk result (λ next. StandsFirst bytes.now next) }
{
    let (_, rest) = bytes.split_at(head.len);
    if rest.len() < head.content {
        return Ok(Next::Partial);
    }
    let (content, _) = rest.split_at(head.content);
    let message = message_of(alloc, routes, &head, content)?;
    Ok(Next::Whole {
        taken: head.len + head.content,
        message,
    })
}

/// The message that stands at the front of the bytes, by a desk's table of routes.
///
/// A message is a head (RFC 9112, sections 2 to 5, as `pl_heads::read_head` says) and as many bytes
/// as its Content-Length says, or none. Its target, then its method, then its content are judged by
/// the table of routes; one that is no request is a message all the same, `Refused`. Partial: no
/// front of the bytes is a message, and none shows a fault. Bad: the first fault that the bytes
/// show.
pub fn next_message(alloc: Global, routes: &Routes, bytes: &[u8]) -> Result<Next, Memory>
    ensures { IfOk result (λ next. StandsFirst bytes.now next) }
{
    match read_head(bytes) {
        Front::Whole(head) => with_head(alloc, routes, bytes, head),
        Front::Partial => Ok(Next::Partial),
        Front::Bad(fault) => Ok(Next::Bad(fault)),
    }
}

/// The message that stands at the front of the bytes, as `next_message` says it, by a table of
/// routes that is made for it alone.
pub fn next_request(alloc: Global, bytes: &[u8]) -> Result<Next, Memory>
    ensures { IfOk result (λ next. StandsFirst bytes.now next) }
{
    let routes = Routes::new(alloc)?;
    next_message(alloc, &routes, bytes)
}

/// No message is a proper front of another, and a message's bytes have one reading.
pub fn one_reading()
    ensures { OneReading }
{}

/// What stands at the front of bytes is one of the three answers only, and one message; while the
/// bytes end inside a target that isn't UTF-8, that may be told later.
pub fn one_answer()
    ensures { OneAnswer }
{}

/// A message at the front stays when more bytes come, and so does a fault.
pub fn messages_stay()
    ensures { MessagesStay }
{}

/// A request that is read is well-formed: it keeps the rules and limits of its fields.
pub fn requests_are_well_formed()
    ensures { RequestsAreWellFormed }
{}
