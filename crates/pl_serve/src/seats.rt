//! The seats of four workers: split from one, and joined again.

ghost use Rattle.std.specs.Prelude.{◌≡◌, ◌<◌};
ghost use Rattle.pl_hall.specs.Seats.{IsFree, parts_of, split_parts};
ghost use Rattle.pl_serve.specs.Seats.{AreFree, AreSplit, IsJoined};

use crate::four::Four;
use pl_hall::{Hall, Service};
use pl_keeper::Keeper;
use pl_turn::Seat;
use std::sync::Wait;

/// Four seats of a hall: this one and three that are split from it, one after the other.
pub(crate) fn split_in_four<R: Wait, K: Keeper + Drop>(
    rt: &R,
    hall: &Hall<K>,
    seat: Seat<Service<K>>,
) -> Four<Seat<Service<K>>>
    requires { IsFree hall.now.lock seat }
    ensures free { AreFree hall.now.lock result }
    ensures split { AreSplit (parts_of seat) result }
{
    let mut first = seat;
    let mut second = split(rt, hall, &mut first);
    let mut third = split(rt, hall, &mut second);
    let fourth = split(rt, hall, &mut third);
    Four {
        first,
        second,
        third,
        fourth,
    }
}

// A new seat, which is split from another. It takes no memory.
fn split<R: Wait, K: Keeper + Drop>(
    rt: &R,
    hall: &Hall<K>,
    seat: &mut Seat<Service<K>>,
) -> Seat<Service<K>>
    requires { IsFree hall.now.lock seat.old }
    ensures free { IsFree hall.now.lock result }
    ensures new { parts_of result ≡ split_parts (parts_of seat.old) result.number }
    ensures number { seat.old.number < result.number }
    ensures same { seat.new ≡ seat.old }
{
    match hall.split(rt, seat) {
        Ok(new) => new,
        Err(_) => unreachable!(),
    }
}

/// The four seats joined into the first one, which has then seen the longest of what they have
/// seen.
pub(crate) fn join_four<K: Keeper + Drop>(
    hall: &Hall<K>,
    seats: Four<Seat<Service<K>>>,
) -> Seat<Service<K>>
    requires { AreFree hall.now.lock seats }
    ensures free { IsFree hall.now.lock result }
    ensures opening { (parts_of result).opening ≡ (parts_of seats.first).opening }
    ensures joined { IsJoined seats result.seen }
{
    let Four {
        mut first,
        second,
        third,
        fourth,
    } = seats;
    hall.join(&mut first, second);
    hall.join(&mut first, third);
    hall.join(&mut first, fourth);
    first
}
