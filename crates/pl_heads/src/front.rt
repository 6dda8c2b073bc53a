ghost use Rattle.pl_heads.specs.Fronts.{StandsAtFront};

use crate::fault::HttpFault;
use crate::judging::{front_at, front_below};
use httparse::spans::EMPTY_HEADER_SPAN;

/// The most bytes of a head.
pub const HEAD_LIMIT: usize = 16_384;

/// The most header lines of a head.
pub const FIELD_LIMIT: usize = 64;

/// The head of a request, and what the service reads of it.
#[derive(Debug, Drop)]
pub struct Head<'b> {
    pub method: &'b [u8],
    pub target: &'b str,
    /// The bearer token (RFC 6750, section 2.1): the bytes behind `Bearer ` in the one value of
    /// Authorization, and none where it isn't of this form.
    pub token: &'b [u8],
    /// How many bytes the head has.
    pub len: usize,
    /// How many bytes of content follow it.
    pub content: usize,
}

/// What stands at the front of a link's bytes.
#[derive(Debug, Drop)]
pub enum Front<'b> {
    /// The beginning of a head.
    Partial,
    /// A head.
    Whole(Head<'b>),
    /// Neither, or a head that has a fault.
    Bad(HttpFault),
}

/// What stands at the front of a link's bytes.
///
/// A head is one by `httparse`'s default rules (RFC 9112, sections 2 to 5), of at most 16,384 bytes
/// and with at most 64 headers. Of the headers Content-Length, Transfer-Encoding and Authorization
/// are read, ignoring the case of their names. Partial: no head is there, and none of the faults.
/// Bad: the first fault that the bytes show. While they end inside a target, the fault of a target
/// that isn't UTF-8 may be told later. It takes no memory.
pub fn read_head(bytes: &[u8]) -> Front<'_>
    ensures { StandsAtFront bytes.entry.now result }
{
    let mut headers = [EMPTY_HEADER_SPAN; FIELD_LIMIT];
    let (front, rest) = bytes.split_at(bytes.len().min(HEAD_LIMIT - 1));
    match front_below(front, &mut headers) {
        Front::Partial => {
            if rest.is_empty() {
                Front::Partial
            } else {
                front_at(bytes.split_at(HEAD_LIMIT).0, &mut headers)
            }
        }
        Front::Whole(head) => Front::Whole(head),
        Front::Bad(fault) => Front::Bad(fault),
    }
}
