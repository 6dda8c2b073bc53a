ghost use Rattle.std.specs.Prelude.{◌≡◌, length};
ghost use Rattle.pl_heads.specs.Heads.{field_limit};
ghost use Rattle.pl_heads.specs.Reading.{IsReading};

use httparse::spans::{HeaderSpan, RequestSpans, parse_request};
use httparse::{Error, Status};

/// What `httparse` says of the front of bytes, with room for 64 headers.
#[derive(Clone, Copy, Debug)]
pub(crate) enum Reading {
    /// A head.
    Whole(RequestSpans),
    /// No head yet.
    Partial,
    /// However the bytes go on, no head.
    Never,
    /// More than 64 header lines.
    Many,
}

/// Reads the front of bytes, and writes where the headers are.
pub(crate) fn read_front(bytes: &[u8], headers: &mut [HeaderSpan]) -> Reading
    requires { length headers.old ≡ field_limit }
    ensures { IsReading bytes.now headers.new result }
{
    match parse_request(bytes, headers) {
        Ok(Status::Complete(spans)) => Reading::Whole(spans),
        Ok(Status::Partial) => Reading::Partial,
        Err(error) => {
            if error == Error::TooManyHeaders {
                Reading::Many
            } else {
                Reading::Never
            }
        }
    }
}
