ghost use Rattle.pl_turn.specs.Laws.{OneBeginsTheOther, NoEntryIsOfTwo};

use crate::standing::Standing;

/// Whatever two seats have seen, the one begins the other: they stand in one history.
pub fn seats_stand_in_one_history<T: Standing>()
    ensures { OneBeginsTheOther T.history T.label T.names }
{}

/// No entry is the own entry of two seats: among those of one, none names another seat's number.
pub fn no_entry_is_of_two_seats<T: Standing>()
    ensures { NoEntryIsOfTwo T.history T.label T.names }
{}
