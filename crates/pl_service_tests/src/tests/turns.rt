ghost use Rattle.std.specs.Prelude.{◌≡◌, [], false, All, IfOk, IfSome};
ghost use Rattle.pl_turn.specs.History.{Adds};

use pl_base::List;
use pl_turn::{Seat, Standing, TurnLock};
use std::alloc::{AllocError, Global};
use std::process::Abort;
use std::sync::Wait;
use std::test::Fail;
use std::thread;
use std::thread::Threads;

/// How many turns each thread has.
const TURNS: u64 = 10_000;

/// A note: the seat that left it, and how many that seat had left before.
#[derive(Clone, Copy, PartialEq, Eq, Debug)]
struct Note {
    seat: u64,
    at: u64,
}

/// The notes that seats left, in order.
#[derive(Drop)]
struct Notes {
    opening: u64,
    notes: List<Note>,
    faults: u64,
}

impl Standing for Notes {
    type Entry = Note;

    type Label = u64;

    ghost history = { λ n. n.notes };

    ghost label = { λ n. n.opening };

    ghost names = { λ e. e.seat };

    ghost counted = { λ n. n.faults };

    fn count(&self) -> u64 {
        self.faults
    }
}

impl Notes {
    fn new(alloc: Global, opening: u64) -> Notes
        ensures { result.notes ≡ [] }
    {
        Notes {
            opening,
            notes: List::new(alloc),
            faults: 0,
        }
    }

    // Without memory no note is left.
    fn leave(&mut self, seat: u64, at: u64)
        ensures history { Adds (λ e. e.seat) seat self.old.notes self.new.notes }
        ensures label { self.new.opening ≡ self.old.opening }
        ensures count { self.new.faults ≡ self.old.faults }
    {
        let _ = self.notes.push(Note { seat, at });
    }
}

fn lock_of(alloc: Global) -> Result<(TurnLock<Notes>, Seat<Notes>), AllocError>
    ensures { IfOk result (λ r. (r.1.lock ≡ r.0) × (r.1.turn ≡ false)) }
{
    match TurnLock::new(alloc, Notes::new(alloc, 7)) {
        Ok((lock, seat)) => Ok((lock, seat)),
        Err(_) => Err(AllocError),
    }
}

// Leaves a note in a turn.
fn leave<R: Wait>(rt: &R, lock: &TurnLock<Notes>, seat: &mut Seat<Notes>, at: u64)
    requires { (seat.old.lock ≡ lock.now) × (seat.old.turn ≡ false) }
    ensures { (seat.new.lock ≡ seat.old.lock) × (seat.new.turn ≡ false) }
{
    let mut notes = lock.take(rt, seat);
    notes.leave(seat.number(), at);
    lock.give_back(seat, notes);
}

// Leaves as many notes, a turn each.
fn leave_all<R: Wait>(
    rt: &R,
    lock: &TurnLock<Notes>,
    mut seat: Seat<Notes>,
    count: u64,
) -> Seat<Notes>
    requires { (seat.lock ≡ lock.now) × (seat.turn ≡ false) }
    ensures { (result.lock ≡ lock.entry.now) × (result.turn ≡ false) }
{
    for at in 0..count {
        leave(rt, lock, &mut seat, at);
    }
    seat
}

// Leaves as many notes for each seat, all seats at once.
fn leave_together<R: Threads + Wait + Sync>(
    rt: &R,
    lock: &TurnLock<Notes>,
    seats: Vec<Seat<Notes>>,
    count: u64,
) -> Result<Vec<Seat<Notes>>, AllocError>
    requires { All (λ s. (s.lock ≡ lock.now) × (s.turn ≡ false)) seats.items }
    ensures { IfOk result (λ v. All (λ s. (s.lock ≡ lock.now) × (s.turn ≡ false)) v.items) }
{
    thread::map_vec(
        rt,
        seats,
        &|seat: Seat<Notes>| -> Seat<Notes>
            requires { (seat.lock ≡ lock.now) × (seat.turn ≡ false) }
            ensures { (result.lock ≡ lock.entry.now) × (result.turn ≡ false) }
        { leave_all(rt, lock, seat, count) },
    )
}

// Splits more seats off, each from the one before it.
fn split_all<R: Wait>(
    rt: &R,
    alloc: Global,
    lock: &TurnLock<Notes>,
    first: Seat<Notes>,
    more: usize,
) -> Result<Vec<Seat<Notes>>, Fail>
    requires { (first.lock ≡ lock.now) × (first.turn ≡ false) }
    ensures { IfOk result (λ v. All (λ s. (s.lock ≡ lock.now) × (s.turn ≡ false)) v.items) }
{
    let mut seats = Vec::new(alloc);
    let mut last = first;
    for _ in 0..more {
        let next = lock.split_seat(rt, &mut last)?;
        seats.push(last)?;
        last = next;
    }
    seats.push(last)?;
    Ok(seats)
}

// Joins all seats into the last one.
fn join_all(lock: &TurnLock<Notes>, mut seats: Vec<Seat<Notes>>) -> Option<Seat<Notes>>
    requires { All (λ s. (s.lock ≡ lock.now) × (s.turn ≡ false)) seats.items }
    ensures { IfSome result (λ s. (s.lock ≡ lock.entry.now) × (s.turn ≡ false)) }
{
    let mut seat = seats.pop()?;
    while let Some(other) = seats.pop() {
        lock.join_seat(&mut seat, other);
    }
    Some(seat)
}

// How many notes a seat left, where they stand in its order from 0 on.
fn in_order(notes: &[Note], seat: u64) -> Option<u64> {
    let mut next = 0u64;
    for note in notes {
        if note.seat == seat {
            if note.at != next {
                return None;
            }
            next = next.wrapping_add(1);
        }
    }
    Some(next)
}

#[test]
fn a_seat_splits_and_joins_and_nothing_is_left(rt: HostRuntime) -> Result<(), Fail> {
    let (lock, mut seat) = lock_of(rt.alloc())?;
    let mut other = lock.split_seat(&rt, &mut seat)?;
    let notes = lock.take(&rt, &mut seat);
    lock.give_back(&mut seat, notes);
    let notes = lock.take(&rt, &mut other);
    lock.give_back(&mut other, notes);
    assert!(rt; seat.number() < other.number());
    lock.join_seat(&mut seat, other);
    let notes = lock.take(&rt, &mut seat);
    assert!(rt; notes.notes.is_empty());
    assert_eq!(rt; notes.count(), 0);
    Ok(())
}

#[test]
fn a_thousand_turns_leave_a_thousand_notes(rt: HostRuntime) -> Result<(), Fail> {
    let (lock, seat) = lock_of(rt.alloc())?;
    let mut seat = leave_all(&rt, &lock, seat, 1000);
    let notes = lock.take(&rt, &mut seat);
    assert_eq!(rt; notes.notes.len(), 1000);
    assert_eq!(rt; notes.opening, 7);
    Ok(())
}

// The notes of three seats: the second is split from the first, and the third from the second.
fn three_seats<R: Wait>(
    rt: &R,
    alloc: Global,
    first_is_joined_first: bool,
) -> Result<Vec<Note>, Fail> {
    let (lock, mut first) = lock_of(alloc)?;
    let mut second = lock.split_seat(rt, &mut first)?;
    let mut third = lock.split_seat(rt, &mut second)?;
    leave(rt, &lock, &mut third, 0);
    leave(rt, &lock, &mut first, 0);
    leave(rt, &lock, &mut second, 0);
    leave(rt, &lock, &mut third, 1);
    let mut last = if first_is_joined_first {
        lock.join_seat(&mut second, first);
        lock.join_seat(&mut third, second);
        third
    } else {
        lock.join_seat(&mut second, third);
        lock.join_seat(&mut first, second);
        first
    };
    leave(rt, &lock, &mut last, 2);
    let notes = lock.take(rt, &mut last);
    let Notes { notes, .. } = notes;
    Ok(notes.into_vec())
}

#[test]
fn seats_join_in_either_order(rt: HostRuntime) -> Result<(), Fail> {
    for first_is_joined_first in [true, false] {
        let notes = three_seats(&rt, rt.alloc(), first_is_joined_first)?;
        let [a, b, c, d, e] = notes.as_slice() else {
            return Err(Fail::from(AllocError));
        };
        assert!(rt; b.seat < c.seat && c.seat < a.seat && d.seat == a.seat);
        assert_eq!(rt;
            e.seat,
            if first_is_joined_first {
                a.seat
            } else {
                b.seat
            }
        );
    }
    Ok(())
}

#[test]
fn all_threads_notes_are_there_in_their_order(rt: HostRuntime) -> Result<(), Fail> {
    let threads = thread::available_parallelism(&rt).map_or(4, |n| n.get().max(4));
    let (lock, first) = lock_of(rt.alloc())?;
    let seats = split_all(&rt, rt.alloc(), &lock, first, threads - 1)?;
    let seats = leave_together(&rt, &lock, seats, TURNS)?;
    let mut numbers = Vec::new(rt.alloc());
    for seat in &seats {
        numbers.push(seat.number())?;
    }
    let Some(mut seat) = join_all(&lock, seats) else {
        return Err(Fail::from(AllocError));
    };
    let notes = lock.take(&rt, &mut seat);
    assert_eq!(rt; notes.notes.len(), threads.saturating_mul(TURNS as usize));
    for number in numbers {
        assert_eq!(rt; in_order(notes.notes.as_slice(), number), Some(TURNS));
    }
    Ok(())
}
