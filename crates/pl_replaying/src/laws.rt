//! What the definition of a replay implies.

ghost use Rattle.pl_replaying.specs.Replaying.{WholeInputFinishes};

use pl_wire::one_reading;

/// A replay of a source that tells whole messages alone, of fewer bytes than may be taken, ends
/// with 0, unless a fault was counted (1, 3 and 4), a row is torn (5), or memory was wanting (6).
pub fn whole_input_finishes()
    ensures { WholeInputFinishes }
{
    one_reading();
}
