//! One link, served until its end.

ghost use Rattle.std.specs.Prelude.{◌≢◌, true, false};
ghost use Rattle.pl_sessions.specs.Parts.{EndsBad};
ghost use Rattle.pl_sessions.specs.Session.{point, Session};
ghost use Rattle.pl_sessions.specs.Told.{told};
ghost use Rattle.pl_sessions.specs.declared.served.Served.TheVariants as served;

use crate::buffer::Buffer;
use crate::desk::Desk;
use crate::served::{Broken, Pause, Served, Unread};
use crate::serving::{answer_on, next_piece, read_on, refuse};
use pl_base::{Clock, Link};
use pl_streams::PIECE;
use pl_wire::{HttpFault, Routes, Waiting};
use std::alloc::Global;

/// Serves a link until its end, or until an accepted shutdown was answered: reads its bytes, lets
/// the desk act on each whole message, and writes the replies in order. The clock is asked once a
/// message. At most 67,108,864 bytes are taken. The table of routes is made once.
pub fn serve_link<D: Desk, L: Link, C: Clock>(
    alloc: Global,
    desk: &mut D,
    link: &mut L,
    clock: &mut C,
) -> Served
    ensures { Session D.acts true (point L.Link C.Clock link.old clock.old desk.old)
        (point L.Link C.Clock link.new clock.new desk.new) result }
{
    serve(alloc, true, desk, link, clock)
}

/// The same, where a shutdown is a message like any other: it is answered, and the link goes on.
pub fn replay_link<D: Desk, L: Link, C: Clock>(
    alloc: Global,
    desk: &mut D,
    link: &mut L,
    clock: &mut C,
) -> Served
    ensures session { Session D.acts false (point L.Link C.Clock link.old clock.old desk.old)
        (point L.Link C.Clock link.new clock.new desk.new) result }
    ensures goes_on { result ≢ served.Stopped }
{
    serve(alloc, false, desk, link, clock)
}

// Serves a link, and heeds shutdowns or not.
fn serve<D: Desk, L: Link, C: Clock>(
    alloc: Global,
    heeds: bool,
    desk: &mut D,
    link: &mut L,
    clock: &mut C,
) -> Served
    ensures { Session D.acts heeds (point L.Link C.Clock link.old clock.old desk.old)
        (point L.Link C.Clock link.new clock.new desk.new) result }
{
    match Routes::new(alloc) {
        Ok(routes) => serve_by(alloc, &routes, heeds, desk, link, clock),
        Err(_) => Served::Memory,
    }
}

// The same, by this table of routes.
fn serve_by<D: Desk, L: Link, C: Clock>(
    alloc: Global,
    routes: &Routes,
    heeds: bool,
    desk: &mut D,
    link: &mut L,
    clock: &mut C,
) -> Served
    ensures { Session D.acts heeds (point L.Link C.Clock link.old clock.old desk.old)
        (point L.Link C.Clock link.new clock.new desk.new) result }
{
    let Ok(mut piece) = vec![in alloc; 0u8; PIECE] else {
        return Served::Memory;
    };
    let mut buffer = Buffer::new(alloc);
    let mut taken = 0;
    let mut waiting = Waiting::new();
    'pieces: loop {
        match answer_on(
            alloc,
            routes,
            heeds,
            desk,
            link,
            clock,
            &mut buffer,
            &mut waiting,
        ) {
            Ok(Pause::More) => {}
            Ok(Pause::Bad(fault)) => return end_bad(alloc, link, fault),
            Ok(Pause::Stopped) => return Served::Stopped,
            Err(Broken::WriteFault) => return Served::WriteFault,
            Err(Broken::Memory) => return Served::Memory,
        }
        let most = next_piece(taken);
        if most == 0 {
            return Served::Spent;
        }
        match read_on(link, &mut buffer, piece.as_mut_slice().split_at_mut(most).0) {
            Ok(0) if buffer.is_empty() => return Served::Ended,
            Ok(0) => return Served::Cut {
                length: buffer.len() as u64,
            },
            Ok(count) => taken += count,
            Err(Unread::ReadFault) => return Served::ReadFault,
            Err(Unread::Memory) => return Served::Memory,
        }
    }
}

// Answers bytes that are no message, and ends.
fn end_bad<L: Link>(alloc: Global, link: &mut L, fault: HttpFault) -> Served
    ensures { EndsBad result fault (told L.Link link.old) (told L.Link link.new) }
{
    match refuse(alloc, link, fault) {
        Ok(()) => Served::Bad(fault),
        Err(Broken::WriteFault) => Served::WriteFault,
        Err(Broken::Memory) => Served::Memory,
    }
}
