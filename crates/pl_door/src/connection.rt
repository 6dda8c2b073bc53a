ghost use Rattle.std.specs.Prelude.{◌≡◌, None, IfOk, IsErr};
ghost use Rattle.pl_base.specs.Counts.{one_more};
ghost use Rattle.pl_door.specs.Telling.{HasJustCome};

use crate::shared::Shared;
use pl_base::{Failed, Link};
use std::alloc::Global;
use std::io::{ErrorKind, Read, Write};
use std::net::{Net, Shutdown, TcpStream};
use std::sync::Arc;
use std::time::{Duration, Instant};
use std::{io, rt};

/// Milliseconds that one wait for a connection lasts. Behind it one on which nothing came since its
/// last reply gives way to those who wait at the door.
pub const TICK: u64 = 50;

/// Milliseconds after which a connection gives way between two messages to those who wait at the
/// door, also where its sender doesn't let it wait.
pub const SHARE: u64 = 1_000;

/// Milliseconds that a connection may be without a whole message, and a write without a byte.
pub const LATE: u64 = 10_000;

// Milliseconds that a write goes on without a byte once the door is closed.
const LAST_WRITE: u64 = 500;

// Milliseconds for which what still comes is dropped after the last reply, and how many bytes.
const LINGER: u64 = 1_000;

const LINGER_BYTES: usize = 262_144;

/// A connection. It ends by a counted fault of reading where the door is closed, where a whole
/// message is late, and where it gives way to those who wait at the door.
#[derive(Drop)]
pub struct Tcp<T> {
    runtime: T,
    alloc: Global,
    stream: TcpStream,
    door: Arc<Shared, Global>,
    // When it came.
    came: Instant,
    // When the last reply ended, or it came.
    since: Instant,
    // Whether no byte came since then.
    quiet: bool,
    ended: bool,
    read_faults: u64,
    write_faults: u64,
}

impl<T: rt::Clock + Copy> Tcp<T> {
    /// A connection that just came; or an error, where it ended before it was served.
    pub(crate) fn new(
        runtime: T,
        alloc: Global,
        stream: TcpStream,
        door: Arc<Shared, Global>,
    ) -> io::Result<Tcp<T>>
        ensures { IfOk result HasJustCome }
    {
        stream.set_nodelay(true)?;
        stream.set_read_timeout(Some(Duration::from_millis(TICK)))?;
        stream.set_write_timeout(Some(Duration::from_millis(TICK)))?;
        let came = Instant::now(&runtime)?;
        Ok(Tcp {
            runtime,
            alloc,
            stream,
            door,
            came,
            since: came,
            quiet: true,
            ended: false,
            read_faults: 0,
            write_faults: 0,
        })
    }

    // Whether so many milliseconds went by since then. Where the clock fails, they did.
    fn is_over(&self, since: Instant, most: u64) -> bool {
        match Instant::now(&self.runtime) {
            Ok(now) => now.saturating_duration_since(since) >= Duration::from_millis(most),
            Err(_) => true,
        }
    }

    // Whether a read may wait for so long: a whole message isn't late, and the door is open.
    fn is_in_time(&self) -> bool {
        !self.door.is_closed() && !self.is_over(self.since, LATE)
    }

    // Whether it is between two messages, while somebody waits at the door.
    fn is_in_the_way(&self) -> bool
    where
        T: Net,
    {
        self.quiet && self.door.someone_waits(&self.runtime, self.alloc)
    }

    // How many milliseconds a write may be without a byte.
    fn patience(&self) -> u64 {
        if self.door.is_closed() {
            LAST_WRITE
        } else {
            LATE
        }
    }

    // Counts a fault of reading.
    fn fails_to_read<A>(&mut self) -> Result<A, Failed>
        ensures fails { IsErr result }
        ensures counts { self.new ≡
            record self.old { read_faults = one_more self.old.read_faults } }
    {
        self.read_faults = self.read_faults.saturating_add(1);
        Err(Failed)
    }

    // Counts a fault of writing.
    fn fails_to_write<A>(&mut self) -> Result<A, Failed>
        ensures fails { IsErr result }
        ensures counts { self.new ≡
            record self.old { write_faults = one_more self.old.write_faults } }
    {
        self.write_faults = self.write_faults.saturating_add(1);
        Err(Failed)
    }

    /// Ends the connection so that the last reply reaches its sender: no more is written, and what
    /// still comes is dropped for a while, since a socket that is closed over unread bytes takes
    /// back what it sent. One that failed, or that its sender ended, is closed at once.
    pub(crate) fn end(mut self) {
        if self.ended || self.read_faults > 0 || self.write_faults > 0 {
            return;
        }
        if self.stream.shutdown(Shutdown::Write).is_ok() {
            self.drop_what_comes();
        }
    }

    fn drop_what_comes(&mut self) {
        let Ok(since) = Instant::now(&self.runtime) else {
            return;
        };
        let mut dropped = 0;
        let mut piece = [0u8; 4096];
        for _ in 0..u64::MAX {
            match self.stream.read(&mut piece) {
                Ok(0) => return,
                Ok(count) => dropped += count.min(LINGER_BYTES - dropped),
                Err(fault) if is_wait(&fault) && !self.door.is_closed() => {}
                Err(_) => return,
            }
            if dropped >= LINGER_BYTES || self.is_over(since, LINGER) {
                return;
            }
        }
    }
}

// Whether a call may be made again: its time was up, or a signal came.
fn is_wait(fault: &io::Error) -> bool {
    matches!(
        fault.kind(),
        ErrorKind::WouldBlock | ErrorKind::TimedOut | ErrorKind::Interrupted
    )
}

impl<T: rt::Clock + Net + Copy> Link for Tcp<T> {
    ghost left = { λ _. None };

    ghost ended = { λ tcp. tcp.ended };

    ghost held = { λ _. None };

    ghost read_faults = { λ tcp. tcp.read_faults };

    ghost write_faults = { λ tcp. tcp.write_faults };

    // The time is looked at before each read, so that a sender of single bytes doesn't stay.
    fn read(&mut self, into: &mut [u8]) -> Result<usize, Failed> {
        let asks = !into.is_empty();
        if !self.is_in_time() || (self.is_over(self.came, SHARE) && self.is_in_the_way()) {
            return self.fails_to_read();
        }
        for _ in 0..u64::MAX {
            match self.stream.read(into) {
                Ok(count) => {
                    self.quiet = self.quiet && count == 0;
                    self.ended = self.ended || (asks && count == 0);
                    return Ok(count);
                }
                Err(fault) if is_wait(&fault) && self.is_in_time() && !self.is_in_the_way() => {}
                Err(_) => break,
            }
        }
        self.fails_to_read()
    }

    fn write(&mut self, bytes: &[u8]) -> Result<usize, Failed> {
        let Ok(begun) = Instant::now(&self.runtime) else {
            return self.fails_to_write();
        };
        for _ in 0..u64::MAX {
            match self.stream.write(bytes) {
                Ok(count) if count > 0 || bytes.is_empty() => {
                    self.quiet = true;
                    self.since = Instant::now(&self.runtime).unwrap_or(begun);
                    return Ok(count);
                }
                Err(fault) if is_wait(&fault) && !self.is_over(begun, self.patience()) => {}
                _ => break,
            }
        }
        self.fails_to_write()
    }

    fn read_faults(&self) -> u64 {
        self.read_faults
    }

    fn write_faults(&self) -> u64 {
        self.write_faults
    }
}
