ghost use Rattle.std.specs.Prelude.{◌≡◌, IsSome};
ghost use Rattle.pl_hall.specs.Seats.{IsFree, first_parts, parts_of};
ghost use Rattle.pl_hall.specs.Below.pl_history.specs.History.{Opening};
ghost use Rattle.pl_serve.specs.History.{AreIn, OneHistory};
ghost use Rattle.pl_serve.specs.Posts.{AreAt, IsAt, WasAt, WereAt};
ghost use Rattle.pl_serve.specs.Seats.{AreFree};
ghost use Rattle.pl_worker.specs.Ends.{end_of};

use crate::four::{Four, Outside};
use crate::seats::{join_four, split_in_four};
use pl_base::Clock;
use pl_hall::{Clerk, Free, Hall, Service};
use pl_keeper::Keeper;
use pl_listener::Listener;
use pl_turn::Seat;
use pl_worker::{Crew, Post, Reasons, Round, serve_by_four};
use std::alloc::Global;
use std::sync::Wait;
use std::thread::Threads;

/// What four workers leave: their handles and clocks, why each of them ended, and the keeper of the
/// hall's rows.
#[derive(Drop)]
pub struct Ended<K, L, C> {
    pub outsides: Four<Outside<L, C>>,
    pub reasons: Reasons,
    pub keeper: K,
}

/// Serves the links of a door as four workers at a hall that was just opened, until one of them has
/// a reason to end. Each has a handle and a clock, and a clerk at a seat of its own. The handles
/// come back, without a link that is out, and so does the keeper: its rows are those of all that
/// was recorded.
pub fn serve<
    R: Threads + Wait + Sync,
    K: Keeper + Drop + Send,
    L: Listener + Drop + Send,
    C: Clock + Drop + Send,
>(
    rt: &R,
    alloc: Global,
    hall: Hall<K>,
    seat: Seat<Service<K>>,
    outsides: Four<Outside<L, C>>,
) -> Ended<K, L, C>
    requires free { IsFree hall.lock seat }
    requires none_out { AreIn L.tells outsides }
    ensures history { (opening : Opening) → parts_of seat ≡ first_parts hall.lock opening
        → OneHistory C.coming L.tells opening (K.held result.keeper) outsides result.reasons
        result.outsides }
    ensures ends { IsSome (end_of result.reasons) }
    ensures all_in { AreIn L.tells result.outsides }
{
    let seats = split_in_four(rt, &hall, seat);
    let crew = posted(rt, &hall, seats, outsides);
    let Round { crew, reasons } = serve_by_four(rt, alloc, crew);
    let (seats, outsides) = left(crew);
    let joined = join_four(&hall, seats);
    Ended {
        outsides,
        reasons,
        keeper: hall.close(rt, joined),
    }
}

// A clerk at each seat, with the handle and the clock of its worker.
fn posted<'a, R: Wait, K: Keeper + Drop, L: Drop, C: Drop>(
    rt: &'a R,
    hall: &'a Hall<K>,
    seats: Four<Seat<Service<K>>>,
    outsides: Four<Outside<L, C>>,
) -> Crew<Clerk<'a, R, Free, K>, L, C>
    requires { AreFree hall.now.lock seats }
    ensures { AreAt (λ clerk. clerk.seat) seats outsides result }
{
    Crew {
        first: post(rt, hall, seats.first, outsides.first),
        second: post(rt, hall, seats.second, outsides.second),
        third: post(rt, hall, seats.third, outsides.third),
        fourth: post(rt, hall, seats.fourth, outsides.fourth),
    }
}

fn post<'a, R: Wait, K: Keeper + Drop, L: Drop, C: Drop>(
    rt: &'a R,
    hall: &'a Hall<K>,
    seat: Seat<Service<K>>,
    outside: Outside<L, C>,
) -> Post<Clerk<'a, R, Free, K>, L, C>
    requires { IsFree hall.now.lock seat }
    ensures { IsAt (λ clerk. clerk.seat) seat outside result }
{
    Post {
        desk: hall.clerk(rt, seat, Free),
        door: outside.door,
        clock: outside.clock,
    }
}

// The seats, which have no turn, and the handles and clocks.
fn left<R: Wait, K: Keeper + Drop, L: Drop, C: Drop>(
    crew: Crew<Clerk<'_, R, Free, K>, L, C>,
) -> (Four<Seat<Service<K>>>, Four<Outside<L, C>>)
    ensures { WereAt (λ clerk. clerk.seat) result.0 result.1 crew.entry }
{
    let (first, one) = left_one(crew.first);
    let (second, two) = left_one(crew.second);
    let (third, three) = left_one(crew.third);
    let (fourth, four) = left_one(crew.fourth);
    let seats = Four {
        first,
        second,
        third,
        fourth,
    };
    let outsides = Four {
        first: one,
        second: two,
        third: three,
        fourth: four,
    };
    (seats, outsides)
}

fn left_one<R: Wait, K: Keeper + Drop, L: Drop, C: Drop>(
    post: Post<Clerk<'_, R, Free, K>, L, C>,
) -> (Seat<Service<K>>, Outside<L, C>)
    ensures { WasAt (λ clerk. clerk.seat) result.0 result.1 post.entry }
{
    let Post { desk, door, clock } = post;
    (desk.into_seat(), Outside { door, clock })
}
