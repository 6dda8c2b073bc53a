ghost use Rattle.pl_opening_laws.specs.Laws.{AreOrderly, AreSound, OpenNothing, RowsAreKept};

use pl_opening::{compilations_can_run, opened_laws, seeing_laws};

/// The laws of what kept rows open, where none of them is torn. The rows are those of the service
/// that they open, with all that is kept of it. Its opening is orderly: stages were started of
/// queued runs alone, jobs have ended where their stages have, and no run's number is above that of
/// the last one. And it is sound: an exclusive resource has one holder at most. Without rows it is
/// that of a new service.
pub fn opening_laws()
    ensures kept { RowsAreKept }
    ensures orderly { AreOrderly }
    ensures sound { AreSound }
    ensures empty { OpenNothing }
{
    compilations_can_run();
    opened_laws();
    seeing_laws();
}
