ghost use Rattle.std.specs.Prelude.{◌≡◌, None, false};

use pl_base::{Clock, Failed, LAST_MOMENT, Moment, Sink, Source};
use std::io::ErrorKind;
use std::time::SystemTime;
use std::{io, rt};

/// A reader as a source.
#[derive(Drop)]
pub struct Reading<R> {
    pub(crate) reader: R,
    pub(crate) ended: bool,
    pub(crate) faults: u64,
}

/// A writer as a sink.
#[derive(Drop)]
pub struct Writing<W> {
    pub(crate) writer: W,
    pub(crate) faults: u64,
}

/// The system's clock.
#[derive(Drop)]
pub struct SystemClock<T> {
    pub(crate) runtime: T,
}

impl<R: io::Read> Source for Reading<R> {
    ghost left = { λ _. None };

    ghost ended = { λ reading. reading.ended };

    ghost faults = { λ reading. reading.faults };

    // A call that a signal interrupted is tried again. The end is told only by a read that asks for
    // a byte.
    fn read(&mut self, into: &mut [u8]) -> Result<usize, Failed> {
        let asks = !into.is_empty();
        for _ in 0..u64::MAX {
            match self.reader.read(into) {
                Ok(count) => {
                    self.ended = self.ended || (asks && count == 0);
                    return Ok(count);
                }
                Err(fault) if fault.kind() == ErrorKind::Interrupted => {}
                Err(_) => break,
            }
        }
        self.faults = self.faults.saturating_add(1);
        Err(Failed)
    }

    fn faults(&self) -> u64 {
        self.faults
    }
}

impl<W: io::Write> Sink for Writing<W> {
    ghost held = { λ _. None };

    ghost faults = { λ writing. writing.faults };

    // A call that a signal interrupted is tried again.
    fn write(&mut self, bytes: &[u8]) -> Result<usize, Failed> {
        for _ in 0..u64::MAX {
            match self.writer.write(bytes) {
                Ok(count) if count > 0 || bytes.is_empty() => return Ok(count),
                Err(fault) if fault.kind() == ErrorKind::Interrupted => {}
                _ => break,
            }
        }
        self.faults = self.faults.saturating_add(1);
        Err(Failed)
    }

    fn faults(&self) -> u64 {
        self.faults
    }
}

impl<T: rt::Clock> Clock for SystemClock<T> {
    ghost coming = { λ _. None };

    fn now(&mut self) -> Moment {
        match SystemTime::now(&self.runtime) {
            Ok(now) => match now.duration_since(SystemTime::UNIX_EPOCH) {
                Ok(since) => since.as_secs().min(LAST_MOMENT),
                Err(_) => 0,
            },
            Err(_) => 0,
        }
    }
}
