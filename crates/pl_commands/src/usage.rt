//! What is written where the words are no command.

ghost use Rattle.std.specs.Prelude.{◌≡◌};
ghost use Rattle.pl_commands.specs.Run.{ShowsUsage};
ghost use Rattle.pl_outfit.specs.Outfit.{outside};

use pl_outfit::{Outfit, Status};
use pl_sessions::write_all;

const USAGE: &[u8] = b"usage: pipectl replay, serve, compile or rehearse\n";

/// Writes the usage line, or its beginning where a write fails.
pub(crate) fn usage<O: Outfit>(outfit: &mut O) -> Status
    ensures { ShowsUsage (outside O.In.Source O.Out.Sink (O.view outfit.old)) result
        (outside O.In.Source O.Out.Sink (O.view outfit.new)) }
{
    let _ = write_all(outfit.ends(), USAGE);
    Status::Usage
}
