ghost use Rattle.std.specs.Prelude.{◌≡◌, option_copied};
ghost use Rattle.pl_alone.specs.Desk.{parts};
ghost use Rattle.pl_outfit.specs.Outfit.{outside};
ghost use Rattle.pl_replaying.specs.Replaying.{Replays, ReplaysAt, status_of};

use pl_alone::{Alone, access_laws, claim_laws, desks_last, kept_laws};
use pl_base::{Digest, Text};
use pl_outfit::{Outfit, Status};
use pl_sessions::{Served, replay_link};
use pl_unopened::{refuse, store_at};
use std::alloc::Global;

/// Answers the messages of the source on the sink, as one session of a service that is opened of
/// the rows of a store, whose admin's token has this digest. A shutdown is answered like any other
/// message. Then the store is handed back.
pub fn replay<O: Outfit>(
    alloc: Global,
    admin: Digest,
    path: Option<&Text>,
    outfit: &mut O,
) -> Status
    ensures { Replays admin (option_copied path.entry)
        (outside O.In.Source O.Out.Sink (O.view outfit.old)) result
        (outside O.In.Source O.Out.Sink (O.view outfit.new)) }
{
    access_laws();
    claim_laws();
    kept_laws();
    let store = match store_at(alloc, path, outfit) {
        Ok(store) => store,
        Err(status) => return status,
    };
    match Alone::open(alloc, store, admin) {
        Ok(desk) => replay_at(alloc, desk, outfit),
        Err(unopened) => refuse(alloc, unopened, outfit),
    }
}

// Answers the messages of the source on the sink, and hands the store back.
fn replay_at<O: Outfit>(alloc: Global, mut desk: Alone<O::Store>, outfit: &mut O) -> Status
    ensures { ReplaysAt (parts O.Store.Keeper desk)
        (outside O.In.Source O.Out.Sink (O.view outfit.old)) result
        (outside O.In.Source O.Out.Sink (O.view outfit.new)) }
{
    desks_last();
    let mut clock = outfit.clock();
    let served = replay_link(alloc, &mut desk, outfit.ends(), &mut clock);
    outfit.keeper_back(desk.into_keeper());
    status(served)
}

// The status of a link that was served, by how it was until.
fn status(served: Served) -> Status
    ensures { result ≡ status_of served }
{
    match served {
        Served::Ended => Status::Finished,
        Served::Cut { .. } | Served::Bad(_) => Status::NotWhole,
        Served::Spent => Status::Spent,
        Served::Stopped => Status::Finished,
        Served::ReadFault => Status::ReadFault,
        Served::WriteFault => Status::WriteFault,
        Served::Memory => Status::Memory,
    }
}
