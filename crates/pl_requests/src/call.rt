use crate::request::Request;
use pl_base::{Digest, Moment};

/// A request with its moment and its caller, who is known by the digest of the bearer token
/// (RFC 6750, section 2.1).
#[derive(Debug, Drop)]
pub struct Call {
    pub moment: Moment,
    pub caller: Digest,
    pub request: Request,
}
