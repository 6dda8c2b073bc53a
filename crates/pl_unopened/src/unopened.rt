ghost use Rattle.std.specs.Prelude.{option_copied};
ghost use Rattle.pl_outfit.specs.Outfit.{outside};
ghost use Rattle.pl_unopened.specs.Unopened.{HasStore, Refuses, Tells, WritesTorn};

use crate::line::torn_line;
use pl_base::{Bytes, Failed, Memory, Text};
use pl_keeper::KeeperFault;
use pl_outfit::{Outfit, Status};
use pl_service::{OpenFault, Unopened};
use pl_sessions::write_all;
use std::alloc::Global;

/// What people are told where the store failed when its rows were asked for.
const UNREAD: &str = "pipectl: the store's rows can't be read\n";

/// The store at a path, or one in memory; or how the program ends where there is none.
pub fn store_at<O: Outfit>(
    alloc: Global,
    path: Option<&Text>,
    outfit: &mut O,
) -> Result<O::Store, Status>
    ensures { HasStore O.Store.held O.Store.faults (option_copied path.entry)
        (outside O.In.Source O.Out.Sink (O.view outfit.old)) result
        (outside O.In.Source O.Out.Sink (O.view outfit.new)) }
{
    match outfit.keeper(alloc, path) {
        Ok(store) => Ok(store),
        Err(KeeperFault::Failed) => Err(Status::KeeperFault),
        Err(KeeperFault::Memory) => Err(Status::Memory),
    }
}

/// Writes or tells why no service can be opened, and hands the store back. A torn row's line is
/// written, `torn TABLE KEY`, or its beginning where a write fails.
pub fn refuse<O: Outfit>(alloc: Global, unopened: Unopened<O::Store>, outfit: &mut O) -> Status
    ensures { Refuses unopened.fault (O.Store.held unopened.keeper)
        (O.Store.faults unopened.keeper)
        (outside O.In.Source O.Out.Sink (O.view outfit.old)) result
        (outside O.In.Source O.Out.Sink (O.view outfit.new)) }
{
    let Unopened { fault, keeper } = unopened;
    let status = tell(alloc, fault, outfit);
    outfit.keeper_back(keeper);
    status
}

// Writes or tells why no service can be opened.
fn tell<O: Outfit>(alloc: Global, fault: OpenFault, outfit: &mut O) -> Status
    ensures { Tells fault (outside O.In.Source O.Out.Sink (O.view outfit.old)) result
        (outside O.In.Source O.Out.Sink (O.view outfit.new)) }
{
    match fault {
        OpenFault::Torn {
            table,
            key,
            bytes: _,
        } => write_torn(alloc, table, key, outfit),
        OpenFault::KeeperFault => {
            outfit.tell(UNREAD);
            Status::KeeperFault
        }
        OpenFault::Memory => Status::Memory,
    }
}

// Writes the line of a torn row, or its beginning where a write fails.
fn write_torn<O: Outfit>(alloc: Global, table: u8, key: Bytes, outfit: &mut O) -> Status
    ensures { WritesTorn table key (outside O.In.Source O.Out.Sink (O.view outfit.old)) result
        (outside O.In.Source O.Out.Sink (O.view outfit.new)) }
{
    let line = match torn_line(alloc, table, key.as_slice()) {
        Ok(line) => line,
        Err(Memory) => return Status::Memory,
    };
    match write_all(outfit.ends(), line.as_bytes()) {
        Ok(()) => Status::Torn,
        Err(Failed) => Status::WriteFault,
    }
}
