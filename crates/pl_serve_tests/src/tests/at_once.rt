use crate::tests::calls::Caller;
use crate::tests::four::{STOP, TEXT, in_four, opened};
use pl_base::{List, MemClock, Memory};
use pl_keeper::{Keeper, Record, decode};
use pl_listener::{MemDoor, MemListener};
use pl_serve::{Ended, Outside, serve};
use pl_worker::End;
use std::alloc::Global;
use std::sync::atomic::AtomicU64;
use std::test::Fail;

const DRAW: &[u8] =
    b"POST /draw HTTP/1.1\r\nAuthorization: Bearer abc\r\nContent-Length: 0\r\n\r\n";

/// Three callers that wait for the fourth, who asks the service to stop.
fn callers(alloc: Global, flag: &AtomicU64) -> Result<List<Caller<'_>>, Memory> {
    let mut callers = List::new(alloc);
    for _ in 0..3u32 {
        callers.push(Caller {
            first: TEXT,
            second: DRAW,
            sets: false,
            flag,
        })?;
    }
    callers.push(Caller {
        first: TEXT,
        second: STOP,
        sets: true,
        flag,
    })?;
    Ok(callers)
}

/// How many texts were queued by the links that a handle gave.
fn made(outside: &Outside<MemListener<'_, Caller<'_>>, MemClock>) -> u64 {
    let mut made = 0u64;
    for returned in outside.door.passed() {
        made = made.saturating_add(returned.link.made);
    }
    made
}

// Four links at once: three of them give their second message only once the fourth link's first one
// was answered. With fewer than four workers they would wait for it, and give up.
#[test]
fn four_links_are_served_at_once(rt: HostRuntime) -> Result<(), Fail> {
    let alloc = rt.alloc();
    let flag = AtomicU64::new(0);
    let (hall, seat) = opened(alloc)?;
    let door = MemDoor::new(callers(alloc, &flag)?);
    let outsides = in_four(alloc, MemListener::new(alloc, &door, List::new(alloc)))?;
    let Ended {
        outsides: four,
        reasons,
        mut keeper,
    } = serve(&rt, alloc, hall, seat, outsides);
    let made = made(&four.first)
        .saturating_add(made(&four.second))
        .saturating_add(made(&four.third))
        .saturating_add(made(&four.fourth));
    assert!(rt; reasons.end() == Some(End::Stopped));
    assert_eq!(rt; made, 4);
    let mut kept = 0u64;
    for row in keeper.rows(alloc)?.as_slice() {
        if matches!(decode(alloc, row)?, Record::Run(_)) {
            kept = kept.saturating_add(1);
        }
    }
    assert_eq!(rt; kept, 4);
    Ok(())
}
