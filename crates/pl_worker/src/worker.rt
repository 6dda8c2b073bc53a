ghost use Rattle.std.specs.Prelude.{◌≡◌, Some, None, Bool};
ghost use Rattle.pl_sessions.specs.Told.{told};
ghost use Rattle.pl_worker.specs.Chain.{is_stopped};
ghost use Rattle.pl_worker.specs.Works.{Works, ServesOne, stand};

use crate::why::Why;
use pl_base::Clock;
use pl_listener::{ListenFault, Listener};
use pl_sessions::{Desk, Served, serve_link};
use std::alloc::Global;
use std::sync::Wait;

/// Serves links until one of them ended with an accepted shutdown, the listener failed, memory was
/// wanting for a link, or the door was closed. Each link is handed back before the next one comes.
/// But where it found the door closed, the worker closes it.
pub fn work<R: Wait, D: Desk, L: Listener, C: Clock>(
    rt: &R,
    alloc: Global,
    desk: &mut D,
    door: &mut L,
    clock: &mut C,
) -> Why
    requires { (L.tells door.old).out ≡ None }
    ensures { Works D.acts (stand desk.old (C.coming clock.old) (L.tells door.old)) result
        (stand desk.new (C.coming clock.new) (L.tells door.new)) }
{
    for _ in rt.forever() {
        match door.accept(alloc) {
            Ok(Some(link)) => {
                if stops(serve_one(alloc, desk, door, clock, link)) {
                    return Why::Stopped;
                }
            }
            Ok(None) => return Why::Closed,
            Err(ListenFault::Failed) => {
                door.close();
                return Why::Failed;
            }
            Err(ListenFault::Memory) => {
                door.close();
                return Why::Memory;
            }
        }
    }
    unreachable!()
}

// Serves a link that was given, and hands it back. Where it ended with an accepted shutdown, the
// door is closed first: handing a link back may take a while.
fn serve_one<D: Desk, L: Listener, C: Clock>(
    alloc: Global,
    desk: &mut D,
    door: &mut L,
    clock: &mut C,
    mut link: L::Link,
) -> Served
    requires { (L.tells door.old).out ≡ Some (told L.Link.Link link) }
    ensures { ServesOne D.acts (told L.Link.Link link)
        (stand desk.old (C.coming clock.old) (L.tells door.old)) result
        (stand desk.new (C.coming clock.new) (L.tells door.new)) }
{
    let served = serve_link(alloc, desk, &mut link, clock);
    if stops(served) {
        door.close();
    }
    door.link_back(link);
    served
}

// Whether a link ended with an accepted shutdown.
fn stops(served: Served) -> bool
    ensures { result ≡ is_stopped served }
{
    matches!(served, Served::Stopped)
}
