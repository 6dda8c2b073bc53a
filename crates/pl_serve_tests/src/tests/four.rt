//! What both tests begin with.

ghost use Rattle.std.specs.Prelude.{◌≡◌, None, IfOk};
ghost use Rattle.pl_serve.specs.Below.pl_hall.specs.Seats.{IsFree};
ghost use Rattle.pl_serve.specs.History.{AreIn};

use pl_base::{List, MemClock, Memory};
use pl_digests::digest_in;
use pl_keeper::MemKeeper;
use pl_listener::{ListenFault, Listener};
use pl_serve::{Four, Hall, Outside, Service};
use pl_turn::Seat;
use std::alloc::Global;

/// The digest of the token `abc`.
const ADMIN: &str = "ba7816bf8f01cfea414140de5dae2223b00361a396177a9cb410ff61f20015ad";

/// A text, which queues a run.
pub(crate) const TEXT: &[u8] =
    b"POST /texts HTTP/1.1\r\nAuthorization: Bearer abc\r\nContent-Length: 24\r\n\r\n\
    steps:\n- script: echo 1\n";

/// An accepted shutdown.
pub(crate) const STOP: &[u8] = b"POST /shutdown HTTP/1.1\r\nAuthorization: Bearer abc\r\n\
    Content-Length: 0\r\n\r\n";

/// A hall over a keeper in memory, and its first seat.
pub(crate) fn opened(alloc: Global) -> Result<(Hall<MemKeeper>, Seat<Service<MemKeeper>>), Memory>
    ensures { IfOk result (λ r. IsFree r.0.lock r.1) }
{
    let Some(admin) = digest_in(ADMIN.as_bytes()) else {
        return Err(Memory);
    };
    let keeper = MemKeeper::new(List::new(alloc), List::new(alloc));
    match Hall::open(alloc, keeper, admin) {
        Ok(opened) => Ok(opened),
        Err(_) => Err(Memory),
    }
}

/// Four handles of a door: a first one, and three that it shares.
pub(crate) fn in_four<L: Listener + Drop>(
    alloc: Global,
    mut first: L,
) -> Result<Four<Outside<L, MemClock>>, ListenFault>
    requires { (L.tells first).out ≡ None }
    ensures { IfOk result (AreIn L.tells) }
{
    let second = first.share(alloc)?;
    let third = first.share(alloc)?;
    let fourth = first.share(alloc)?;
    Ok(Four {
        first: with_clock(first),
        second: with_clock(second),
        third: with_clock(third),
        fourth: with_clock(fourth),
    })
}

fn with_clock<L>(door: L) -> Outside<L, MemClock>
    ensures { result.door ≡ door }
{
    Outside {
        door,
        clock: MemClock::new(1_704_067_200),
    }
}
