//! The parts of serving a link: reading, answering and writing.

ghost use Rattle.std.specs.Prelude.{◌≡◌, ◌&&◌, ◌++◌, ◌-◌, ℕ, List, length, min, OnOk, OnErr, IfOk};
ghost use Rattle.std.specs.Prelude.{codes};
ghost use Rattle.pl_base.specs.Counts.{one_more};
ghost use Rattle.pl_requests.specs.Replies.{refusal};
ghost use Rattle.pl_sessions.specs.Acts.{sent, refused};
ghost use Rattle.pl_sessions.specs.Desk.{IsWellFormed};
ghost use Rattle.pl_sessions.specs.Halts.{is_done};
ghost use Rattle.pl_sessions.specs.Parts.{AnswersAll, AnswersOne, CountsUnread, EndsAtNone};
ghost use Rattle.pl_sessions.specs.Parts.{OnlyWrites, ReadsPiece, Sends};
ghost use Rattle.pl_sessions.specs.Session.{point};
ghost use Rattle.pl_sessions.specs.Told.{told, Begun, SameWriting, Writes};
ghost use Rattle.pl_streams.specs.Whole.{taken_limit};
ghost use Rattle.pl_wire.specs.Message.{IsMessage};
ghost use Rattle.pl_wire.specs.Waiting.{Awaits};
ghost use Rattle.pl_wire.specs.Written.{written};

use crate::answer::Answer;
use crate::buffer::Buffer;
use crate::desk::{Desk, is_done, is_shutdown};
use crate::served::{Broken, Pause, Unread};
use pl_base::{Clock, Failed, Link, Memory};
use pl_requests::Reply;
use pl_streams::{PIECE, TAKEN_LIMIT};
use pl_wire::{
    HttpFault, Message, Next, Routes, Waiting, fault_reply, memory_reply, next_message,
    reply_bytes, requests_are_well_formed,
};
use std::alloc::Global;

/// Writes all of the bytes, or their beginning where a write fails.
pub fn write_all<L: Link>(link: &mut L, bytes: &[u8]) -> Result<(), Failed>
    ensures ok { OnOk result (Writes bytes.now (told L.Link link.old) (told L.Link link.new)) }
    ensures err { OnErr result
        (Begun bytes.now (one_more (L.write_faults link.old))
        (told L.Link link.old) (told L.Link link.new)) }
{
    let mut written = 0;
    while written < bytes.len() {
        written += link.write(bytes.split_at(written).1)?;
    }
    Ok(())
}

// The reply where the keeper of the rows failed.
fn keeper_reply(alloc: Global) -> Result<Reply, Memory>
    ensures { IfOk result (λ reply. reply ≡ refusal 503 (codes "keeper.fault")) }
{
    Reply::refusal(alloc, 503, "keeper.fault")
}

// Writes a reply, or its beginning.
fn send<L: Link>(alloc: Global, link: &mut L, reply: &Reply) -> Result<(), Broken>
    ensures { Sends result (written reply.now) (told L.Link link.old) (told L.Link link.new) }
{
    let bytes = reply_bytes(alloc, reply)?;
    write_all(link, bytes.as_slice())?;
    Ok(())
}

// Writes an answer, or its beginning.
fn respond<L: Link>(alloc: Global, link: &mut L, answer: &Answer) -> Result<(), Broken>
    ensures { Sends result (sent answer.now) (told L.Link link.old) (told L.Link link.new) }
{
    match answer {
        Answer::Reply(reply) => send(alloc, link, reply),
        Answer::KeeperFault => {
            let reply = keeper_reply(alloc)?;
            send(alloc, link, &reply)
        }
        Answer::Memory => {
            write_all(link, memory_reply())?;
            Ok(())
        }
    }
}

/// Answers bytes that are no message.
pub fn refuse<L: Link>(alloc: Global, link: &mut L, fault: HttpFault) -> Result<(), Broken>
    ensures { Sends result (refused fault) (told L.Link link.old) (told L.Link link.new) }
{
    let reply = fault_reply(alloc, fault)?;
    send(alloc, link, &reply)
}

// Whether a session ends by this answer, where a message asks it to stop or not.
fn stops(heeds: bool, asks: bool, answer: &Answer) -> bool
    ensures { result ≡ ((heeds && asks) && is_done answer.now) }
{
    heeds && asks && is_done(answer)
}

// Lets the desk act on a message, and writes its answer. It says whether that was an accepted
// shutdown, where these are heeded.
fn answer_next<D: Desk, L: Link, C: Clock>(
    alloc: Global,
    heeds: bool,
    desk: &mut D,
    link: &mut L,
    clock: &mut C,
    message: Message,
) -> Result<bool, Broken>
    requires { IsWellFormed message }
    ensures answers { (front rest : List ℕ) → IsMessage front message
        → AnswersOne D.acts heeds result
        (point L.Link C.Clock link.old clock.old desk.old) (front ++ rest)
        (point L.Link C.Clock link.new clock.new desk.new) rest }
    ensures writes { OnlyWrites result (told L.Link link.old) (told L.Link link.new) }
{
    let asks = is_shutdown(&message);
    let moment = clock.now();
    let answer = desk.act(alloc, moment, message);
    let halts = stops(heeds, asks, &answer);
    match respond(alloc, link, &answer) {
        Ok(()) => Ok(halts),
        Err(broken) => Err(broken),
    }
}

// Answers each whole message of the buffer, up to an accepted shutdown where these are heeded.
fn answer_all<D: Desk, L: Link, C: Clock>(
    alloc: Global,
    routes: &Routes,
    heeds: bool,
    desk: &mut D,
    link: &mut L,
    clock: &mut C,
    buffer: &mut Buffer,
) -> Result<Pause, Broken>
    ensures answers { AnswersAll D.acts heeds result
        (point L.Link C.Clock link.old clock.old desk.old) buffer.old
        (point L.Link C.Clock link.new clock.new desk.new) buffer.new }
    ensures writes { OnlyWrites result (told L.Link link.old) (told L.Link link.new) }
{
    'messages: loop {
        match next_message(alloc, routes, buffer.as_slice())? {
            Next::Partial => return Ok(Pause::More),
            Next::Bad(fault) => return Ok(Pause::Bad(fault)),
            Next::Whole { taken, message } => {
                requests_are_well_formed();
                let halted = answer_next(alloc, heeds, desk, link, clock, message)?;
                buffer.take(taken);
                if halted {
                    return Ok(Pause::Stopped);
                }
            }
        }
    }
}

/// The same, where the bytes may be known to begin a message only: then they aren't read again.
pub fn answer_on<D: Desk, L: Link, C: Clock>(
    alloc: Global,
    routes: &Routes,
    heeds: bool,
    desk: &mut D,
    link: &mut L,
    clock: &mut C,
    buffer: &mut Buffer,
    waiting: &mut Waiting,
) -> Result<Pause, Broken>
    requires { Awaits waiting.old buffer.old }
    ensures answers { AnswersAll D.acts heeds result
        (point L.Link C.Clock link.old clock.old desk.old) buffer.old
        (point L.Link C.Clock link.new clock.new desk.new) buffer.new }
    ensures writes { OnlyWrites result (told L.Link link.old) (told L.Link link.new) }
    ensures waits { OnOk result (Awaits waiting.new buffer.new) }
{
    if waiting.goes_on(buffer.as_slice()) {
        return Ok(Pause::More);
    }
    let why = answer_all(alloc, routes, heeds, desk, link, clock, buffer)?;
    *waiting = Waiting::of(buffer.as_slice());
    Ok(why)
}

/// Reads a piece behind the buffer, and says how many bytes came.
pub fn read_on<L: Link>(
    link: &mut L,
    buffer: &mut Buffer,
    piece: &mut [u8],
) -> Result<usize, Unread>
    ensures reads { ReadsPiece (length piece.old) result
        (told L.Link link.old) (told L.Link link.new) buffer.old buffer.new }
    ensures end { EndsAtNone (length piece.old) result (told L.Link link.new) }
    ensures counts { CountsUnread result (L.read_faults link.old) (L.read_faults link.new) }
    ensures writing { SameWriting (told L.Link link.old) (told L.Link link.new) }
{
    let count = match link.read(piece) {
        Ok(count) => count,
        Err(Failed) => return Err(Unread::ReadFault),
    };
    match buffer.push(piece.split_at(count).0) {
        Ok(()) => Ok(count),
        Err(_) => Err(Unread::Memory),
    }
}

/// How many bytes the next read asks for, where so many were taken: none past the limit.
pub fn next_piece(taken: usize) -> usize
    ensures { result ≡ min 65536 (taken_limit - taken) }
{
    PIECE.min(TAKEN_LIMIT.saturating_sub(taken))
}
