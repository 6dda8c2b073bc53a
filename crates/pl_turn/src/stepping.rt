ghost use Rattle.std.specs.Prelude.{◌≡◌, ℕ, ◌+◌, ◌<◌, ◌≤◌, ◌^◌, true, false, [], ◌∷◌, Some, None};
ghost use mathlib.Core.List.{IsPrefix};
ghost use Rattle.pl_turn.specs.History.{Adds};
ghost use Rattle.pl_turn.specs.Rule.{KnowsItsOwn};
ghost use Rattle.pl_turn.specs.Steps.{waiting, numbered, rested, newcomer, told_of, learned};
ghost use Rattle.pl_turn.specs.Steps.{GotTurn, Ended};
ghost use Rattle.pl_turn.specs.declared.view.Stage.TheVariants.{Idle, Waiting, Turn};

use crate::seat::Token;
use crate::standing::Standing;
use crate::turn_lock::{SEATS, SERVING, TICKET, TurnLock};
use crate::view::{Apart, AwaitTurn, DrawNumber, DrawTicket, EndTurn, Learn, Together};
use crossbeam_utils::Backoff;
use std::sync::Wait;

// Draws a ticket. The first try is at what the ticket word was last known to be.
pub(crate) fn draw_ticket<T: Standing + Drop, R: Wait>(
    rt: &R,
    lock: &TurnLock<T>,
    token: &mut Token<T>,
    known: u64,
) -> u64
    requires own { token.old.table_id ≡ lock.now }
    requires free { token.old.me.0.stage ≡ Idle }
    ensures same { (token.new.table_id ≡ token.old.table_id) × (token.new.id ≡ token.old.id) }
    ensures ticket { token.new.me ≡ (waiting result token.old.me.0, token.old.me.1) }
    ensures room { result + 1 < 2 ^ 64 }
{
    let shared = &lock.table.shared;
    let backoff = Backoff::new();
    let mut expected = known.min(u64::MAX - 1);
    for _ in rt.forever() {
        let next = expected + 1;
        let found = shared.compare_exchange::<DrawTicket>(token, TICKET, expected, next);
        if found == expected {
            return found;
        }
        expected = found.min(u64::MAX - 1);
        backoff.snooze();
    }
    unreachable!()
}

// Waits until the ticket is served.
pub(crate) fn await_turn<T: Standing + Drop, R: Wait>(
    rt: &R,
    lock: &TurnLock<T>,
    token: &mut Token<T>,
    ticket: u64,
)
    requires own { token.old.table_id ≡ lock.now }
    requires waits { token.old.me.0.stage ≡ Waiting ticket }
    requires live { (l : T.Label) × (token.old.me.0.label ≡ Some l) }
    requires drawn { token.old.me.0.drawn ≡ true }
    ensures same { (token.new.table_id ≡ token.old.table_id) × (token.new.id ≡ token.old.id) }
    ensures turn { GotTurn T.history T.label T.names T.counted ticket token.old.me token.new.me }
{
    let backoff = Backoff::new();
    for _ in rt.forever() {
        let served = lock.table.shared.load::<AwaitTurn>(token, SERVING);
        if served == ticket {
            return;
        }
        rest(rt, lock, &backoff, served);
    }
    unreachable!()
}

// Draws a number for a new seat. The first try is at the number above the one that it kept.
pub(crate) fn draw_number<T: Standing + Drop, R: Wait>(
    rt: &R,
    lock: &TurnLock<T>,
    token: &mut Token<T>,
    kept: u64,
) -> u64
    requires own { token.old.table_id ≡ lock.now }
    requires drawn { token.old.me.0.drawn ≡ false }
    requires live { (l : T.Label) × (token.old.me.0.label ≡ Some l) }
    requires new { (token.old.me.0.mine ≡ []) × (token.old.me.0.joined ≡ []) }
    ensures same { (token.new.table_id ≡ token.old.table_id) × (token.new.id ≡ token.old.id) }
    ensures number { token.new.me ≡ (numbered result token.old.me.0, token.old.me.1) }
    ensures above { token.old.me.0.number < result }
{
    let shared = &lock.table.shared;
    let backoff = Backoff::new();
    let mut expected = kept.min(u64::MAX - 2) + 1;
    for _ in rt.forever() {
        let next = expected + 1;
        let found = shared.compare_exchange::<DrawNumber>(token, SEATS, expected, next);
        if found == expected {
            return found;
        }
        expected = found.min(u64::MAX - 1);
        backoff.snooze();
    }
    unreachable!()
}

// Yields to other threads, and once it has done so some times, sleeps until another ticket is
// served.
fn rest<T: Standing + Drop, R: Wait>(rt: &R, lock: &TurnLock<T>, backoff: &Backoff, served: u64) {
    if backoff.is_completed() {
        lock.table
            .shared
            .park(rt, SERVING, (served % (1 << 32)) as u32);
    } else {
        backoff.snooze();
    }
}

// Takes the value out of the slot that the seat has.
pub(crate) fn take_out<T: Standing + Drop>(lock: &TurnLock<T>, token: &mut Token<T>) -> T
    requires own { token.old.table_id ≡ lock.now }
    requires full { (y : T) × (token.old.me.1 ≡ (0, Some y) ∷ []) }
    ensures same { (token.new.table_id ≡ token.old.table_id) × (token.new.id ≡ token.old.id) }
    ensures value { token.old.me.1 ≡ (0, Some result) ∷ [] }
    ensures empty { token.new.me ≡ (token.old.me.0, (0, None) ∷ []) }
{
    match lock.table.shared.exchange(token, 0, None) {
        Some(value) => value,
        None => unreachable!(),
    }
}

// Puts a value into the slot that the seat has, which is empty.
fn put_in<T: Standing + Drop>(lock: &TurnLock<T>, token: &mut Token<T>, value: T)
    requires own { token.old.table_id ≡ lock.now }
    requires empty { token.old.me.1 ≡ (0, None) ∷ [] }
    ensures same { (token.new.table_id ≡ token.old.table_id) × (token.new.id ≡ token.old.id) }
    ensures full { token.new.me ≡ (token.old.me.0, (0, Some value) ∷ []) }
{
    lock.table.shared.exchange(token, 0, Some(value));
}

// Gives the value and the slot back, and serves the next ticket.
pub(crate) fn end_turn<T: Standing + Drop>(
    lock: &TurnLock<T>,
    token: &mut Token<T>,
    next: u64,
    value: T,
)
    requires own { token.old.table_id ≡ lock.now }
    requires empty { token.old.me.1 ≡ (0, None) ∷ [] }
    requires turn { (ticket : ℕ) × (token.old.me.0.stage ≡ Turn ticket) × (next ≡ ticket + 1) }
    requires drawn { token.old.me.0.drawn ≡ true }
    requires label { token.old.me.0.label ≡ Some (T.label value) }
    requires history { Adds T.names token.old.me.0.number token.old.me.0.seen (T.history value) }
    ensures same { (token.new.table_id ≡ token.old.table_id) × (token.new.id ≡ token.old.id) }
    ensures ended { Ended T.history T.names T.counted value token.old.me token.new.me }
    ensures mine { KnowsItsOwn T.names token.old.me.0.seen token.old.me.0 }
{
    put_in(lock, token, value);
    lock.table.shared.store::<EndTurn>(token, SERVING, next);
    if lock.table.shared.peek(TICKET) != next {
        lock.table.shared.wake_all(SERVING);
    }
}

// Splits a new seat off, which has drawn no number yet.
pub(crate) fn split_off<T: Standing + Drop>(lock: &TurnLock<T>, token: &mut Token<T>) -> Token<T>
    requires own { token.old.table_id ≡ lock.now }
    requires live { (l : T.Label) × (token.old.me.0.label ≡ Some l) }
    ensures same { (token.new.table_id ≡ token.old.table_id) × (token.new.id ≡ token.old.id) }
    ensures kept { token.new.me ≡ token.old.me }
    ensures new { (result.table_id ≡ lock.entry.now) × (result.me ≡ (newcomer token.old.me.0, [])) }
{
    lock.table.shared.split_seat::<Apart>(token)
}

// Tells a seat what another has seen, and joins the other away.
pub(crate) fn tell<T: Standing + Drop>(lock: &TurnLock<T>, token: &mut Token<T>, other: Token<T>)
    requires own { (token.old.table_id ≡ lock.now) × (other.table_id ≡ lock.now) }
    requires live { (l : T.Label) × (token.old.me.0.label ≡ Some l) }
    requires idle { (other.me.0.stage ≡ Idle) × (other.me.1 ≡ []) }
    requires drawn { other.me.0.drawn ≡ true }
    ensures same { (token.new.table_id ≡ token.old.table_id) × (token.new.id ≡ token.old.id) }
    ensures told { token.new.me ≡ (told_of token.old.me.0 other.me.0, token.old.me.1) }
{
    lock.table.shared.join_seat::<Together>(token, other);
}

// Makes what a seat has seen the longer of it and what it was told.
pub(crate) fn learn<T: Standing + Drop>(lock: &TurnLock<T>, token: &mut Token<T>)
    requires own { token.old.table_id ≡ lock.now }
    requires idle { token.old.me.0.stage ≡ Idle }
    ensures same { (token.new.table_id ≡ token.old.table_id) × (token.new.id ≡ token.old.id) }
    ensures longer { token.new.me ≡ (learned token.old.me.0, token.old.me.1) }
    ensures seen { IsPrefix token.old.me.0.seen token.new.me.0.seen }
    ensures told { IsPrefix token.old.me.0.told token.new.me.0.seen }
{
    lock.table.shared.load::<Learn>(token, SERVING);
}
