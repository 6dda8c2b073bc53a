ghost use Rattle.std.specs.Prelude.{◌≡◌, ◌<◌, ◌≤◌, true, false, [], ◌∷◌, Some, IfOk, IfErr, IsOk};
ghost use mathlib.Core.List.{IsPrefix};
ghost use Rattle.pl_turn.specs.History.{entries_of, Adds, longer};
ghost use Rattle.pl_turn.specs.Places.{Grows, first_place, having_taken, given_back, split_place};

use crate::seat::{Seat, Token};
use crate::standing::Standing;
use crate::stepping::{
    await_turn, draw_number, draw_ticket, end_turn, learn, split_off, take_out, tell,
};
use crate::view::{Turns, View};
use atomic_table::{Refused, Table};
use pl_base::Memory;
use std::alloc::{AllocFailed, Global};
use std::marker::Model;
use std::snapshot::Snapshot;
use std::sync::Wait;

/// The ticket that is served, the next ticket, and the next number of a seat.
pub(crate) const SERVING: usize = 0;

pub(crate) const TICKET: usize = 1;

pub(crate) const SEATS: usize = 2;

/// What the words and the slot of a lock are kept in.
pub(crate) type TurnTable<T> = Table<
    Option<T>,
    View<<T as Standing>::Entry, <T as Standing>::Label>,
    Snapshot<T>,
    Turns,
    Global,
>;

/// A lock over one value, which its seats take in turns, in the order in which they ask.
#[derive(Drop)]
pub struct TurnLock<T: Standing + Drop> {
    pub(crate) table: TurnTable<T>,
}

impl<T: Standing + Drop> Model for TurnLock<T> {
    ghost use Rattle.atomic_table.specs.Seated.{TableId, table_id_coded};
    ghost use Rattle.pl_turn.specs.Places.{IsTurnTable};

    ghost Value = { TableId };

    ghost coded = { table_id_coded };

    ghost view = { λ l. l.table.shared.table_id };

    ghost invariant = { λ l. IsTurnTable l.table.shared.table_id };
}

impl<T: Standing + Drop> TurnLock<T> {
    /// A lock over a value that stands for no entries yet, with its first seat. Where there is no
    /// memory, the value comes back.
    pub fn new(alloc: Global, value: T) -> Result<(TurnLock<T>, Seat<T>), T>
        requires { T.history value ≡ [] }
        ensures ok { IfOk result (λ r. r.1 ≡ first_place r.0 (T.label value)) }
        ensures err { IfErr result (λ v. v ≡ value) }
    {
        let about = Snapshot::of(&value);
        let slots = match slot_of(alloc, value) {
            Ok(slots) => slots,
            Err(value) => return Err(value),
        };
        match Table::new(alloc, &[0, 0, 1], slots, &about) {
            Ok((table, token)) => Ok((
                TurnLock { table },
                Seat {
                    token,
                    number: 0,
                    next: 0,
                },
            )),
            Err(Refused { slots }) => Err(value_of(slots)),
        }
    }

    /// Waits for a turn and takes the value, whose history begins with what the seat has seen, and
    /// from then on is what it has seen. The value has the seat's label. The turn ends with
    /// `give_back`. After 2^64 - 1 turns of the lock it waits for ever.
    ///
    /// No clause keeps a caller from dropping the value or the seat now, or from returning early
    /// between the two calls: then the turn never ends, and each later `take` of the lock waits for
    /// ever. So nothing that may fail with `?` stands between `take` and `give_back`.
    pub fn take<R: Wait>(&self, rt: &R, seat: &mut Seat<T>) -> T
        requires own { seat.old.lock ≡ self.now }
        requires free { seat.old.turn ≡ false }
        ensures label { seat.old.label ≡ Some (T.label result) }
        ensures begins { IsPrefix seat.old.seen (T.history result) }
        ensures mine { seat.old.mine ≡ entries_of T.names seat.old.number (T.history result) }
        ensures seat { seat.new ≡ having_taken (T.history result) (T.counted result) seat.old }
    {
        let ticket = draw_ticket(rt, self, &mut seat.token, seat.next);
        seat.next = ticket + 1;
        await_turn(rt, self, &mut seat.token, ticket);
        take_out(self, &mut seat.token)
    }

    /// Gives the value back and ends the turn. At most one entry was added, which names this seat:
    /// what was seen and the seat's own entries grow by it. The seat's faults grow by as much as
    /// the value's count rose since it was taken, and by one at least where the count stands at its
    /// last value, 2^64 - 1.
    pub fn give_back(&self, seat: &mut Seat<T>, value: T)
        requires own { seat.old.lock ≡ self.now }
        requires turn { seat.old.turn ≡ true }
        requires history { Adds T.names seat.old.number seat.old.seen (T.history value) }
        requires label { seat.old.label ≡ Some (T.label value) }
        requires count { seat.old.taken ≤ T.counted value }
        ensures grows { Grows T.names seat.old seat.new }
        ensures seat { seat.new ≡ given_back T.names (T.history value) (T.counted value) seat.old }
    {
        end_turn(self, &mut seat.token, seat.next, value);
    }

    /// A new seat, which has the same label, has seen as much and has no entries of its own. Its
    /// number is above the old seat's and no other seat's. It takes no memory, and so never answers
    /// Memory. After 2^64 - 2 splits of the lock it waits for ever.
    pub fn split_seat<R: Wait>(&self, rt: &R, seat: &mut Seat<T>) -> Result<Seat<T>, Memory>
        requires { seat.old.lock ≡ self.now }
        ensures some { IsOk result }
        ensures new { IfOk result (λ s. s ≡ split_place seat.old s.number) }
        ensures number { IfOk result (λ s. seat.old.number < s.number) }
        ensures same { seat.new ≡ seat.old }
    {
        let mut token = split_off(self, &mut seat.token);
        let number = draw_number(rt, self, &mut token, seat.number);
        Ok(Seat {
            token,
            number,
            next: seat.next,
        })
    }

    /// Joins a seat into another. What this one has seen becomes the longer of what the two have
    /// seen, which begins with the other. Its number and its own entries stay.
    pub fn join_seat(&self, seat: &mut Seat<T>, other: Seat<T>)
        requires own { (seat.old.lock ≡ self.now) × (other.lock ≡ self.now) }
        requires free { (seat.old.turn ≡ false) × (other.turn ≡ false) }
        ensures begins { IsPrefix seat.old.seen seat.new.seen × IsPrefix other.seen seat.new.seen }
        ensures seat { seat.new ≡ record seat.old { seen = longer seat.old.seen other.seen } }
    {
        let Seat {
            token,
            number: _,
            next: _,
        } = other;
        tell(self, &mut seat.token, token);
        learn(self, &mut seat.token);
    }
}

// A vector of one slot, which holds the value.
fn slot_of<T: Drop>(alloc: Global, value: T) -> Result<Vec<Option<T>>, T>
    ensures ok { IfOk result (λ slots. slots.items ≡ Some value ∷ []) }
    ensures err { IfErr result (λ v. v ≡ value) }
{
    let mut slots = Vec::new(alloc);
    match slots.push(Some(value)) {
        Ok(()) => Ok(slots),
        Err(AllocFailed { value: Some(value) }) => Err(value),
        Err(AllocFailed { value: None }) => unreachable!(),
    }
}

// The value of a vector of one slot.
fn value_of<T: Drop>(mut slots: Vec<Option<T>>) -> T
    requires { (value : T) × (slots.items ≡ Some value ∷ []) }
    ensures { slots.items ≡ Some result ∷ [] }
{
    match slots.pop() {
        Some(Some(value)) => value,
        _ => unreachable!(),
    }
}
