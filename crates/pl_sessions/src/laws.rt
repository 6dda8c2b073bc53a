//! What the definition of messages implies.

ghost use Rattle.pl_sessions.specs.Messages.{OneStream, RestsAreOpen};

use pl_wire::one_reading;

/// A stream has one list of messages and one rest, in whatever pieces it comes: so the bytes that
/// a session writes don't depend on the pieces.
pub fn one_stream()
    ensures { OneStream }
{
    one_reading();
}

/// Where a session ended, no message stands at the front of its rest; but behind an accepted
/// shutdown nothing is said of the rest.
pub fn rests_are_open()
    ensures { RestsAreOpen }
{
    one_reading();
}
