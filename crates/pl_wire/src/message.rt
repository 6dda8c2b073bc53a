use pl_base::Digest;
use pl_heads::HttpFault;
use pl_requests::Request;

/// Why a message is refused, after which the link goes on.
#[derive(Clone, Copy, Debug, PartialEq, Eq)]
pub enum RequestFault {
    /// The target has a `?`, no route has it, or a part of it breaks its rule: 404 `route.unknown`.
    RouteUnknown,
    /// Its route doesn't have this method: 405 `method.unknown`.
    MethodUnknown,
    /// The content isn't what its route asks for: 400 `body.bad`.
    BodyBad,
}

/// A whole message.
#[derive(Debug, Drop)]
pub enum Message {
    /// A request, and the digest of its bearer token (RFC 6750, section 2.1).
    Ask { caller: Digest, request: Request },
    /// A message that is no request of the service.
    Refused(RequestFault),
}

/// What stands at the front of bytes that came from a client.
#[derive(Debug, Drop)]
pub enum Next {
    /// The beginning of a message.
    Partial,
    /// A whole message, which is so many bytes long.
    Whole { taken: usize, message: Message },
    /// Neither: however the bytes go on, they begin with no message that is read. The link ends.
    Bad(HttpFault),
}
