//! Callers whose links wait for one another.

ghost use Rattle.std.specs.Prelude.{◌≡◌, None, false};

use pl_base::{Failed, Link, Memory};
use pl_listener::Visitor;
use std::alloc::Global;
use std::sync::atomic::{AtomicU64, Ordering};

/// After how many looks at a flag a link gives up.
const LOOKS: u64 = 1_000_000_000;

/// One who sends two messages. The second comes once the flag is set, but for the one who sets it:
/// that is set where a message of this one was answered.
#[derive(Drop)]
pub struct Caller<'a> {
    pub first: &'a [u8],
    pub second: &'a [u8],
    pub sets: bool,
    pub flag: &'a AtomicU64,
}

/// A caller's link. It counts the replies that say that something was made.
#[derive(Drop)]
pub struct Call<'a> {
    rest: &'a [u8],
    second: Option<&'a [u8]>,
    sets: bool,
    flag: &'a AtomicU64,
    pub made: u64,
    ended: bool,
    read_faults: u64,
}

impl<'a> Visitor for Caller<'a> {
    type Link = Call<'a>;

    ghost comes = { λ _. record {
      left = None;
      ended = false;
      held = None;
      read_faults = 0;
      write_faults = 0;
    } };

    fn link(&self, _alloc: Global) -> Result<Call<'a>, Memory> {
        Ok(Call {
            rest: self.first,
            second: Some(self.second),
            sets: self.sets,
            flag: self.flag,
            made: 0,
            ended: false,
            read_faults: 0,
        })
    }
}

/// Whether the flag is set, or becomes so in time.
pub(crate) fn is_set_in_time(flag: &AtomicU64) -> bool {
    for _ in 0..LOOKS {
        if flag.load(Ordering::SeqCst) == 1 {
            return true;
        }
    }
    false
}

impl Call<'_> {
    // Goes on to the second message, where the first one was given whole. False where the flag
    // wasn't set in time.
    fn goes_on(&mut self) -> bool
        ensures ended { self.new.ended ≡ self.old.ended }
        ensures faults { self.new.read_faults ≡ self.old.read_faults }
    {
        if !self.rest.is_empty() {
            return true;
        }
        let Some(second) = self.second else {
            return true;
        };
        if !self.sets && !is_set_in_time(self.flag) {
            return false;
        }
        self.rest = second;
        self.second = None;
        true
    }
}

impl Link for Call<'_> {
    ghost left = { λ _. None };

    ghost ended = { λ call. call.ended };

    ghost held = { λ _. None };

    ghost read_faults = { λ call. call.read_faults };

    ghost write_faults = { λ _. 0 };

    fn read(&mut self, into: &mut [u8]) -> Result<usize, Failed> {
        if !self.goes_on() {
            self.read_faults = self.read_faults.saturating_add(1);
            return Err(Failed);
        }
        let count = self.rest.len().min(into.len());
        let (front, rest) = self.rest.split_at(count);
        into.split_at_mut(count).0.copy_from_slice(front);
        self.rest = rest;
        self.ended = self.ended || (!into.is_empty() && count == 0);
        Ok(count)
    }

    fn write(&mut self, bytes: &[u8]) -> Result<usize, Failed> {
        if bytes.starts_with(b"HTTP/1.1 201") {
            self.made = self.made.saturating_add(1);
        }
        if self.sets {
            self.flag.store(1, Ordering::SeqCst);
        }
        Ok(bytes.len())
    }

    fn read_faults(&self) -> u64 {
        self.read_faults
    }

    fn write_faults(&self) -> u64 {
        0
    }
}
