//! Heads below the limit of bytes, and at it.

ghost use Rattle.std.specs.Prelude.{◌≡◌, ◌≤◌, MatchBool, length, take};
ghost use Rattle.httparse.specs.Grammar.{MayBecomeRequest, NeverHasRequest};
ghost use Rattle.httparse.specs.Spans.{RequestExceeds};
ghost use Rattle.pl_heads.specs.Fronts.{StandsAtFront};
ghost use Rattle.pl_heads.specs.Heads.{below_limit, field_limit, head_limit};

use crate::fault::HttpFault;
use crate::framing::head_of;
use crate::front::Front;
use crate::lines::cut;
use crate::reading::{Reading, read_front};
use httparse::spans::HeaderSpan;

/// What stands at the front of fewer than 16,384 bytes.
pub(crate) fn front_below<'b>(bytes: &'b [u8], headers: &mut [HeaderSpan]) -> Front<'b>
    requires room { length headers.old ≡ field_limit }
    requires short { length bytes.now ≤ below_limit }
    ensures { StandsAtFront bytes.entry.now result }
{
    match read_front(bytes, headers) {
        Reading::Whole(spans) => head_of(bytes, headers, spans),
        Reading::Many => Front::Bad(HttpFault::HeadLarge),
        Reading::Partial => match cut(bytes) {
            Some(_) => Front::Bad(HttpFault::HeadLarge),
            None => Front::Partial,
        },
        Reading::Never => {
            if has_many(bytes, headers) {
                Front::Bad(HttpFault::HeadLarge)
            } else {
                Front::Bad(HttpFault::HeadBad)
            }
        }
    }
}

/// Whether a 65th header line was whole before no continuation was a head.
fn has_many(bytes: &[u8], headers: &mut [HeaderSpan]) -> bool
    requires room { length headers.old ≡ field_limit }
    requires never { NeverHasRequest bytes.now }
    ensures { MatchBool result (RequestExceeds field_limit bytes.now)
        (¬ (RequestExceeds field_limit bytes.now)) }
{
    let Some(end) = cut(bytes) else {
        return false;
    };
    match read_front(bytes.split_at(end).0, headers) {
        Reading::Whole(_) => unreachable!(),
        Reading::Partial => true,
        Reading::Many => true,
        Reading::Never => false,
    }
}

/// What stands at the front of 16,384 bytes, of which one fewer begin a head.
pub(crate) fn front_at<'b>(bytes: &'b [u8], headers: &mut [HeaderSpan]) -> Front<'b>
    requires room { length headers.old ≡ field_limit }
    requires long { length bytes.now ≡ head_limit }
    requires begun { MayBecomeRequest (take below_limit bytes.now) }
    ensures { StandsAtFront bytes.entry.now result }
{
    match read_front(bytes, headers) {
        Reading::Whole(spans) => head_of(bytes, headers, spans),
        Reading::Partial => Front::Bad(HttpFault::HeadLarge),
        Reading::Many => Front::Bad(HttpFault::HeadLarge),
        Reading::Never => Front::Bad(HttpFault::HeadLarge),
    }
}
