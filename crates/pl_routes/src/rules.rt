//! What parts of a path must be, once they are decoded.

ghost use Rattle.std.specs.Prelude.{◌≡◌};
ghost use Rattle.pl_routes.specs.Parts.{Gives};
ghost use Rattle.pl_routes.specs.Rules.{is_plain, kind_said, run_said};

use crate::fault::RouteFault;
use pl_base::Kind;

/// The most digits of a run's number: it fits 8 bytes.
const DIGIT_LIMIT: usize = 18;

/// Whether a text has at most 18 bytes, the first of which is neither a `+` nor a `0`.
fn is_plain(text: &[u8]) -> bool
    ensures { result ≡ is_plain text.now }
{
    match text {
        [b'+', ..] => false,
        [b'0', ..] => false,
        _ => text.len() <= DIGIT_LIMIT,
    }
}

/// The number of a run, by its text: 1 to 18 decimal digits, of which the first isn't 0.
/// RouteUnknown where the text is anything else. It takes no memory.
pub fn run_number(text: &str) -> Result<u64, RouteFault>
    ensures { Gives result (run_said text.now) }
{
    if !is_plain(text.as_bytes()) {
        return Err(RouteFault::RouteUnknown);
    }
    match text.parse() {
        Ok(number) => Ok(number),
        Err(_) => Err(RouteFault::RouteUnknown),
    }
}

/// The kind of a resource, by its word, which is compared exactly. RouteUnknown where the text is
/// none of the five. It takes no memory.
pub fn kind_of(text: &str) -> Result<Kind, RouteFault>
    ensures { Gives result (kind_said text.now) }
{
    match text {
        "environment" => Ok(Kind::Environment),
        "connection" => Ok(Kind::Connection),
        "group" => Ok(Kind::Group),
        "pool" => Ok(Kind::Pool),
        "repository" => Ok(Kind::Repository),
        _ => Err(RouteFault::RouteUnknown),
    }
}
