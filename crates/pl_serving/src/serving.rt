ghost use Rattle.std.specs.Prelude.{◌≡◌, option_copied};
ghost use Rattle.pl_serve.specs.Below.pl_hall.specs.Seats.{IsFree, first_parts, parts_of};
ghost use Rattle.pl_serve.specs.Below.pl_history.specs.History.{Opening};
ghost use Rattle.pl_outfit.specs.Outfit.{outside};
ghost use Rattle.pl_serve.specs.History.{AreIn};
ghost use Rattle.pl_serving.specs.Doors.{AreNew, all_ended};
ghost use Rattle.pl_serving.specs.Serving.{Serves, ServesHall, ServesLinks, Start, StartsWith};
ghost use Rattle.pl_serving.specs.Serving.{handles_of};

use crate::doors::four_doors;
use crate::statuses::{end_status, fault_status};
use pl_base::{Digest, Text};
use pl_outfit::{Outfit, Status};
use pl_serve::{Ended, Four, Hall, Outside, Service, serve};
use pl_turn::Seat;
use pl_unopened::{refuse, store_at};
use std::alloc::Global;
use std::sync::Wait;
use std::thread::Threads;

/// Serves the links that come to a door at an address, as a service that is opened of the rows of a
/// store, whose admin's token has this digest.
pub fn serve_at<R: Threads + Wait + Sync, O: Outfit>(
    rt: &R,
    alloc: Global,
    admin: Digest,
    address: &Text,
    path: Option<&Text>,
    outfit: &mut O,
) -> Status
    ensures { Serves O.Time.coming O.Door.tells admin address.now (option_copied path.entry)
        (outside O.In.Source O.Out.Sink (O.view outfit.old)) result
        (outside O.In.Source O.Out.Sink (O.view outfit.new)) }
{
    let store = match store_at(alloc, path, outfit) {
        Ok(store) => store,
        Err(status) => return status,
    };
    match Hall::open(alloc, store, admin) {
        Ok((hall, seat)) => serve_hall(rt, alloc, hall, seat, address, outfit),
        Err(unopened) => refuse(alloc, unopened, outfit),
    }
}

// Serves the links that come to a door at an address, at a hall that was just opened, and hands its
// store back.
fn serve_hall<R: Threads + Wait + Sync, O: Outfit>(
    rt: &R,
    alloc: Global,
    hall: Hall<O::Store>,
    seat: Seat<Service<O::Store>>,
    address: &Text,
    outfit: &mut O,
) -> Status
    requires free { IsFree hall.lock seat }
    ensures { (opening : Opening) → parts_of seat ≡ first_parts hall.lock opening
        → ServesHall O.Time.coming O.Door.tells opening address.now
        (outside O.In.Source O.Out.Sink (O.view outfit.old)) result
        (outside O.In.Source O.Out.Sink (O.view outfit.new)) }
{
    match four_doors(alloc, address, outfit) {
        Ok(doors) => serve_doors(rt, alloc, hall, seat, doors, outfit),
        Err(fault) => {
            outfit.keeper_back(hall.close(rt, seat));
            fault_status(fault)
        }
    }
}

// Serves the links that four handles give, ends the handles, and hands the store back.
fn serve_doors<R: Threads + Wait + Sync, O: Outfit>(
    rt: &R,
    alloc: Global,
    hall: Hall<O::Store>,
    seat: Seat<Service<O::Store>>,
    doors: Four<O::Door>,
    outfit: &mut O,
) -> Status
    requires free { IsFree hall.lock seat }
    requires new { AreNew O.Door.tells doors }
    requires out { (O.view outfit.old).doors.out ≡ 4 }
    ensures { (opening : Opening) → parts_of seat ≡ first_parts hall.lock opening
        → ServesLinks O.Time.coming O.Door.tells opening doors
        (outside O.In.Source O.Out.Sink (O.view outfit.old)) result
        (outside O.In.Source O.Out.Sink (O.view outfit.new)) }
{
    let outsides = with_clocks(outfit, doors);
    let Ended {
        outsides,
        reasons,
        keeper,
    } = serve(rt, alloc, hall, seat, outsides);
    end_four(outfit, outsides);
    outfit.keeper_back(keeper);
    match reasons.end() {
        Some(end) => end_status(end),
        None => unreachable!(),
    }
}

// A clock for each of four handles.
fn with_clocks<O: Outfit>(outfit: &mut O, doors: Four<O::Door>) -> Four<Outside<O::Door, O::Time>>
    ensures start { Start O.Time.coming
        (outside O.In.Source O.Out.Sink (O.view outfit.old)) doors result }
    ensures same { O.view outfit.new ≡ O.view outfit.old }
{
    let Four {
        first,
        second,
        third,
        fourth,
    } = doors;
    Four {
        first: with_clock(outfit, first),
        second: with_clock(outfit, second),
        third: with_clock(outfit, third),
        fourth: with_clock(outfit, fourth),
    }
}

fn with_clock<O: Outfit>(outfit: &mut O, door: O::Door) -> Outside<O::Door, O::Time>
    ensures starts { StartsWith O.Time.coming
        (outside O.In.Source O.Out.Sink (O.view outfit.old)) door result }
    ensures same { O.view outfit.new ≡ O.view outfit.old }
{
    Outside {
        door,
        clock: outfit.clock(),
    }
}

// Ends four handles.
fn end_four<O: Outfit>(outfit: &mut O, outsides: Four<Outside<O::Door, O::Time>>)
    requires none_out { AreIn O.Door.tells outsides }
    requires out { (O.view outfit.old).doors.out ≡ 4 }
    ensures { O.view outfit.new ≡ record (O.view outfit.old) {
      doors = all_ended (handles_of O.Door.tells outsides) (O.view outfit.old).doors;
    } }
{
    let Four {
        first,
        second,
        third,
        fourth,
    } = outsides;
    outfit.door_back(first.door);
    outfit.door_back(second.door);
    outfit.door_back(third.door);
    outfit.door_back(fourth.door);
}
