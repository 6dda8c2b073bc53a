//! Two clerks, one of whom is held while it compiles.

ghost use Rattle.pl_hall.specs.Seats.{IsFree};

use crate::tests::calls::is_set_in_time;
use crate::tests::four::opened;
use pl_base::Memory;
use pl_hall::{Free, Gate, Hall, Service};
use pl_keeper::Keeper;
use pl_sessions::{Answer, Desk};
use pl_turn::Seat;
use pl_wire::{Next, next_request, requests_are_well_formed};
use std::alloc::Global;
use std::sync::Wait;
use std::sync::atomic::{AtomicU64, Ordering};
use std::test::Fail;
use std::thread::{Threads, join};

const PUT: &str = "PUT /files/app/refs%2Fheads%2Fmain/%2Fci.yml HTTP/1.1\r\n\
    Authorization: Bearer abc\r\nContent-Length: 24\r\n\r\nsteps:\n- script: echo 1\n";

const SET: &str = "PUT /pipelines/ci HTTP/1.1\r\nAuthorization: Bearer abc\r\n\
    Content-Length: 31\r\n\r\n{\"repo\":\"app\",\"path\":\"/ci.yml\"}";

const QUEUE: &str = "POST /runs HTTP/1.1\r\nAuthorization: Bearer abc\r\n\
    Content-Length: 57\r\n\r\n\
    {\"pipeline\":\"ci\",\"ref\":\"refs/heads/main\",\"parameters\":{}}";

const DRAW: &str = "POST /draw HTTP/1.1\r\nAuthorization: Bearer abc\r\n\
    Content-Length: 0\r\n\r\n";

/// A file in the pipeline's place in which there is none.
const PUT_ANOTHER: &str = "PUT /files/app/refs%2Fheads%2Fmain/%2Fci.yml HTTP/1.1\r\n\
    Authorization: Bearer abc\r\nContent-Length: 5\r\n\r\na: b\n";

/// What has happened: a clerk has come to its gate, and the other's messages are answered.
#[derive(Drop)]
struct Flags {
    entered: AtomicU64,
    answered: AtomicU64,
}

/// A gate that is closed until the other clerk's messages are answered, or for a while.
#[derive(Drop)]
struct Held<'a> {
    flags: &'a Flags,
}

impl Gate for Held<'_> {
    fn before_compile(&self) {
        self.flags.entered.store(1, Ordering::SeqCst);
        let _answered = is_set_in_time(&self.flags.answered);
    }
}

/// The status of the reply to a message.
fn status<D: Desk>(alloc: Global, desk: &mut D, bytes: &str) -> Result<u16, Memory> {
    requests_are_well_formed();
    let next = next_request(alloc, bytes.as_bytes())?;
    let Next::Whole { taken: _, message } = next else {
        return Err(Memory);
    };
    match desk.act(alloc, 1_704_067_200, message) {
        Answer::Reply(reply) => Ok(reply.status),
        Answer::KeeperFault => Ok(503),
        Answer::Memory => Err(Memory),
    }
}

/// The statuses of the replies to two messages.
fn asked<D: Desk + Drop>(
    alloc: Global,
    mut desk: D,
    messages: [&str; 2],
) -> Result<[u16; 2], Memory> {
    let [first, second] = messages;
    Ok([
        status(alloc, &mut desk, first)?,
        status(alloc, &mut desk, second)?,
    ])
}

/// The statuses of what comes beside a queue that is held in its gate, and of that queue, with a
/// draw behind it. Whoever is held stays on this thread.
fn side_by_side<R: Threads + Wait + Sync, D: Desk + Drop + Send, E: Desk + Drop>(
    rt: &R,
    alloc: Global,
    flags: &Flags,
    free: D,
    held: E,
) -> (Result<[u16; 2], Memory>, Result<[u16; 2], Memory>) {
    join(
        rt,
        move || -> Result<[u16; 2], Memory> {
            let _entered = is_set_in_time(&flags.entered);
            let beside = asked(alloc, free, [DRAW, PUT_ANOTHER]);
            flags.answered.store(1, Ordering::SeqCst);
            beside
        },
        move || -> Result<[u16; 2], Memory> { asked(alloc, held, [QUEUE, DRAW]) },
    )
}

/// The same by clerks at two seats.
fn by_two_clerks<R: Threads + Wait + Sync, K: Keeper + Drop + Send>(
    rt: &R,
    alloc: Global,
    hall: &Hall<K>,
    first: Seat<Service<K>>,
    second: Seat<Service<K>>,
) -> (Result<[u16; 2], Memory>, Result<[u16; 2], Memory>)
    requires first { IsFree hall.now.lock first }
    requires second { IsFree hall.now.lock second }
{
    let flags = Flags {
        entered: AtomicU64::new(0),
        answered: AtomicU64::new(0),
    };
    let flags = &flags;
    let free = hall.clerk(rt, second, Free);
    let held = hall.clerk(rt, first, Held { flags });
    side_by_side(rt, alloc, flags, free, held)
}

// A queue is held in its compile until the other clerk's draw is answered, and its put of a file
// that is no pipeline. One that kept the lock while it compiles, or compiled in its turn alone,
// would be queued.
#[test]
fn a_queue_heeds_what_was_put_while_it_was_compiled(rt: HostRuntime) -> Result<(), Fail> {
    let alloc = rt.alloc();
    let (hall, mut first) = opened(alloc)?;
    let second = hall.split(&rt, &mut first)?;
    let third = hall.split(&rt, &mut first)?;
    assert_eq!(rt;
        asked(alloc, hall.clerk(&rt, third, Free), [PUT, SET])?,
        [200, 200]
    );
    let (beside, queued) = by_two_clerks(&rt, alloc, &hall, first, second);
    assert_eq!(rt; queued?, [422, 204]);
    assert_eq!(rt; beside?, [204, 200]);
    Ok(())
}
