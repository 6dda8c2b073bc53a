ghost use Rattle.std.specs.Prelude.{◌≡◌};

use crate::standing::Standing;
use crate::view::View;
use atomic_table::Seat as TableSeat;
use std::marker::Model;

/// What a seat steps with.
pub(crate) type Token<T> = TableSeat<
    Option<T>,
    View<<T as Standing>::Entry, <T as Standing>::Label>,
>;

/// A place at a turn lock, which takes turns with the lock's value, one at a time.
///
/// Contracts see its lock, the label of the lock's value, `seen`, which is the beginning of the one
/// history that it has seen, `mine`, which is its own entries there, and its number. They see
/// whether it has the turn, how many turns it had, how many faults were counted in them, and the
/// count of the value that it took last. A seat may go to another thread.
///
/// Nothing keeps a seat from being dropped while it has the turn. Then the turn never ends, and
/// each later `take` of the lock waits for ever.
#[derive(Drop)]
pub struct Seat<T: Standing> {
    pub(crate) token: Token<T>,
    pub(crate) number: u64,
    /// What the ticket word was last known to be.
    pub(crate) next: u64,
}

impl<T: Standing> Model for Seat<T> {
    ghost use Rattle.pl_turn.specs.Places.{Place, place_code};

    ghost Value = { Place T.Entry T.Label };

    ghost coded = { place_code T.Entry.code T.Label.code };

    ghost use Rattle.pl_turn.specs.Seats.{place_at, IsAtRest};

    ghost view = { λ s. place_at s.token };

    ghost invariant = { λ s. IsAtRest s.token s.number s.next };
}

impl<T: Standing> Seat<T> {
    /// The seat's number, which its entries name. No other seat of the lock has it.
    pub fn number(&self) -> u64
        ensures { result ≡ self.now.number }
    {
        self.number
    }
}
