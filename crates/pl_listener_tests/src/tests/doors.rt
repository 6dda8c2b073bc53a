ghost use Rattle.std.specs.Prelude.{◌≡◌, None};

use pl_base::{Failed, Link, List, Memory};
use pl_listener::{ListenFault, Listener, MemDoor, MemListener, MemVisitor};
use std::alloc::Global;
use std::test::Fail;
use std::thread;
use std::thread::Threads;

/// One who sends these bytes.
fn visitor(alloc: Global, bytes: &[u8]) -> Result<MemVisitor, Memory> {
    Ok(MemVisitor {
        bytes: List::from_slice(alloc, bytes)?,
        piece: 16,
        room: 16,
        failing_reads: List::new(alloc),
        failing_writes: List::new(alloc),
    })
}

/// A door to which three come.
fn door_of_three(alloc: Global) -> Result<MemDoor<MemVisitor>, Memory> {
    let mut visitors = List::new(alloc);
    visitors.push(visitor(alloc, b"one")?)?;
    visitors.push(visitor(alloc, b"two")?)?;
    visitors.push(visitor(alloc, b"three")?)?;
    Ok(MemDoor::new(visitors))
}

/// Writes what a read of a link gives back to it.
fn echo<L: Link>(link: &mut L) -> Result<usize, Failed> {
    let mut piece = [0u8; 16];
    let count = link.read(&mut piece)?;
    link.write(piece.as_slice().split_at(count).0)
}

/// Serves the next link and hands it back. False where the door is closed.
fn pass<L: Listener>(alloc: Global, door: &mut L) -> Result<bool, ListenFault>
    requires { (L.tells door.old).out ≡ None }
    ensures { (L.tells door.new).out ≡ None }
{
    match door.accept(alloc)? {
        Some(mut link) => {
            let _ = echo(&mut link);
            door.link_back(link);
            Ok(true)
        }
        None => Ok(false),
    }
}

/// Whether a handle has these links behind it, of which each got its own bytes back.
fn has_passed(handle: &MemListener<'_, MemVisitor>, all: &[&[u8]]) -> bool {
    let mut same = handle.passed().len() == all.len();
    for (returned, bytes) in handle.passed().iter().zip(all) {
        same = same && returned.visitor.bytes.as_slice() == *bytes;
        same = same && returned.link.sink.bytes() == *bytes;
    }
    same
}

// Links come in order, and each handle keeps those that were handed back to it. A call that is
// listed fails, and so does one to which nobody is left to come; each is counted by its own handle.
#[test]
fn links_come_in_order(rt: HostRuntime) -> Result<(), Fail> {
    let alloc = rt.alloc();
    let door = door_of_three(alloc)?;
    let failing = List::from_slice(alloc, [3u64].as_slice())?;
    let mut first = MemListener::new(alloc, &door, failing);
    let Ok(mut second) = first.share(alloc) else {
        return Err(Fail::from(Memory));
    };
    assert!(rt; pass(alloc, &mut first) == Ok(true));
    assert!(rt; pass(alloc, &mut second) == Ok(true));
    assert!(rt; pass(alloc, &mut first) == Err(ListenFault::Failed));
    assert!(rt; first.faults() == 1 && second.faults() == 0);
    assert!(rt; pass(alloc, &mut second) == Ok(true));
    assert!(rt; pass(alloc, &mut first) == Err(ListenFault::Failed));
    assert!(rt; first.faults() == 2);
    assert!(rt; has_passed(&first, &[b"one".as_slice()]));
    assert!(rt; has_passed(&second, &[b"two".as_slice(), b"three".as_slice()]));
    Ok(())
}

// A handle that closed the door gives no link, and nor do the others; that isn't a fault.
#[test]
fn none_comes_once_the_door_is_closed(rt: HostRuntime) -> Result<(), Fail> {
    let alloc = rt.alloc();
    let door = door_of_three(alloc)?;
    let mut first = MemListener::new(alloc, &door, List::new(alloc));
    let Ok(mut second) = first.share(alloc) else {
        return Err(Fail::from(Memory));
    };
    assert!(rt; pass(alloc, &mut second) == Ok(true));
    second.close();
    assert!(rt; pass(alloc, &mut second) == Ok(false));
    assert!(rt; pass(alloc, &mut first) == Ok(false));
    assert!(rt; first.faults() == 0 && second.faults() == 0);
    assert!(rt; has_passed(&first, &[]));
    assert!(rt; has_passed(&second, &[b"one".as_slice()]));
    Ok(())
}

/// Asks for a link four times, and serves each that comes.
fn pass_four<L: Listener>(alloc: Global, door: L) -> L
    requires { (L.tells door).out ≡ None }
    ensures { (L.tells result).out ≡ None }
{
    let mut door = door;
    for _ in 0..4u32 {
        let _ = pass(alloc, &mut door);
    }
    door
}

/// The same at two handles at once.
fn pass_at_once<L: Listener + Drop + Send, R: Threads + Sync>(
    rt: &R,
    alloc: Global,
    first: L,
    second: L,
) -> (L, L)
    requires one { (L.tells first).out ≡ None }
    requires two { (L.tells second).out ≡ None }
{
    thread::join(
        rt,
        move || -> L
            requires { (L.tells first).out ≡ None }
        { pass_four(alloc, first) },
        move || -> L
            requires { (L.tells second).out ≡ None }
        { pass_four(alloc, second) },
    )
}

// Each link goes through one handle, however many threads there are, and each call that gives none
// is counted.
#[test]
fn threads_share_a_door(rt: HostRuntime) -> Result<(), Fail> {
    let alloc = rt.alloc();
    let door = door_of_three(alloc)?;
    let mut first = MemListener::new(alloc, &door, List::new(alloc));
    let Ok(second) = first.share(alloc) else {
        return Err(Fail::from(Memory));
    };
    let (first, second) = pass_at_once(&rt, alloc, first, second);
    assert!(rt; first.passed().len() + second.passed().len() == 3);
    assert!(rt; first.faults().saturating_add(second.faults()) == 5);
    Ok(())
}
