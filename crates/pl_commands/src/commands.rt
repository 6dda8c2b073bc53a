//! The top call.

ghost use Rattle.std.specs.Prelude.{◌≡◌, ◌↔◌, None, map, string_bytes};
ghost use Rattle.pl_commands.specs.Run.{ReadsToItsEnd, Runs};
ghost use Rattle.pl_commands.specs.Counted.{DoorsCounted, ReadsCounted, StoresCounted};
ghost use Rattle.pl_commands.specs.Counted.{WritesCounted};
ghost use Rattle.pl_outfit.specs.Outfit.{outside};
ghost use Rattle.pl_words.specs.Words.{command_of};

use crate::compiling::compile;
use crate::usage::usage;
use pl_outfit::{Outfit, Status};
use pl_rehearse::rehearse;
use pl_replaying::replay;
use pl_serving::serve_at;
use pl_words::{Command, parse};
use std::alloc::Global;
use std::sync::Wait;
use std::thread::Threads;

/// Runs the command that the words are.
///
/// `replay --admin HEX` answers the messages of the source on the sink, as one session of a
/// service whose admin's token has the SHA-256 digest HEX: 0 where the source was read to its end
/// between messages, 9 where it ended inside a message or isn't messages, 10 where 67,108,864 bytes
/// were taken, 1 and 3 where a read or a write failed, 6 where memory was wanting.
///
/// `serve --admin HEX --listen ADDRESS` answers the messages of the links that come to a door at
/// that address, as four workers at such a service: 0 where a link ended with an accepted shutdown,
/// else 7 where the door couldn't be opened or failed, 6 where memory was wanting. With
/// `--store PATH` the service of both goes on from the rows of the store at that path, and else its
/// rows are kept in memory: 4 where the store couldn't be opened, 5 where one of its rows is torn,
/// and then `torn TABLE KEY` is written.
///
/// `compile`, with as many `--param NAME=TEXT` as wanted, writes what the bundle of the source
/// compiles to: 0 where that is the plan's text, 8 where it is the line of a refusal, 9 where the
/// source holds no bundle; 10, 1, 3 and 6 as before, and where memory was wanting since a budget
/// was passed, people are told which. `rehearse --runs N` rehearses N generated runs on a service of
/// its own, and writes what they come to, as `runs N jobs J superseded S`: 0 where it was written, 3
/// and 6 as before. Nothing is read then. Other words are a usage line and 2.
pub fn run<R: Threads + Wait + Sync, O: Outfit>(
    rt: &R,
    alloc: Global,
    words: &[String],
    outfit: &mut O,
) -> Status
    ensures usage { (result ≡ Status.Usage)
        ↔ (command_of (map (λ word. string_bytes word) words.now) ≡ None) }
    ensures runs { Runs O.Time.coming O.Door.tells
        (command_of (map (λ word. string_bytes word) words.now))
        (outside O.In.Source O.Out.Sink (O.view outfit.old)) result
        (outside O.In.Source O.Out.Sink (O.view outfit.new)) }
    ensures read_to_its_end { ReadsToItsEnd
        (command_of (map (λ word. string_bytes word) words.now)) result
        (outside O.In.Source O.Out.Sink (O.view outfit.new)).link }
    ensures reads_counted { ReadsCounted result (O.In.faults (O.view outfit.old).ends.source)
        (O.In.faults (O.view outfit.new).ends.source) }
    ensures writes_counted { WritesCounted result (O.Out.faults (O.view outfit.old).ends.sink)
        (O.Out.faults (O.view outfit.new).ends.sink) }
    ensures stores_counted { StoresCounted result (O.view outfit.old).stores.faults
        (O.view outfit.new).stores.faults }
    ensures doors_counted { DoorsCounted result (O.view outfit.old).doors.faults
        (O.view outfit.new).doors.faults }
{
    ran(rt, alloc, words, outfit)
}

// Runs the command that the words are.
fn ran<R: Threads + Wait + Sync, O: Outfit>(
    rt: &R,
    alloc: Global,
    words: &[String],
    outfit: &mut O,
) -> Status
    ensures { Runs O.Time.coming O.Door.tells
        (command_of (map (λ word. string_bytes word) words.now))
        (outside O.In.Source O.Out.Sink (O.view outfit.old)) result
        (outside O.In.Source O.Out.Sink (O.view outfit.new)) }
{
    match parse(alloc, words) {
        Ok(Some(Command::Replay { admin, store })) => replay(alloc, admin, store.as_ref(), outfit),
        Ok(
            Some(
                Command::Serve {
                    admin,
                    address,
                    store,
                },
            ),
        ) => serve_at(rt, alloc, admin, &address, store.as_ref(), outfit),
        Ok(Some(Command::Compile { arguments })) => compile(alloc, &arguments, outfit),
        Ok(Some(Command::Rehearse { runs })) => rehearse(alloc, runs, outfit),
        Ok(None) => usage(outfit),
        Err(_) => Status::Memory,
    }
}
