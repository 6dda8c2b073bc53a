//! A door through which nobody comes.

ghost use Rattle.std.specs.Prelude.{◌≡◌, if◌then◌else◌, None, Some, false};

use pl_base::{MemSink, MemSource, Paired};
use pl_listener::{ListenFault, Listener};
use std::alloc::Global;

/// A handle of a door through which nobody comes: each call of `accept` fails.
#[derive(Drop)]
pub struct FailingDoor {
    closed: bool,
    found_closed: bool,
    // Whether a link is out, of which nothing is told. It gives none, so none is.
    is_out: bool,
    faults: u64,
}

impl FailingDoor {
    /// The first handle.
    pub fn new() -> FailingDoor
        ensures open { result.closed ≡ false }
        ensures unfound { result.found_closed ≡ false }
        ensures out { result.is_out ≡ false }
        ensures quiet { result.faults ≡ 0 }
    {
        FailingDoor {
            closed: false,
            found_closed: false,
            is_out: false,
            faults: 0,
        }
    }
}

impl Listener for FailingDoor {
    type Link = Paired<MemSource, MemSink>;

    ghost tells = { λ door. record {
      out = if door.is_out
          then Some (record {
            left = None;
            ended = false;
            held = None;
            read_faults = 0;
            write_faults = 0;
          })
          else None;
      accepted = 0;
      passed = None;
      closed = door.closed;
      found_closed = door.found_closed;
      faults = door.faults;
    } };

    fn accept(&mut self, _alloc: Global) -> Result<Option<Self::Link>, ListenFault> {
        if self.closed || self.found_closed {
            self.found_closed = true;
            return Ok(None);
        }
        self.faults = self.faults.saturating_add(1);
        Err(ListenFault::Failed)
    }

    fn share(&mut self, _alloc: Global) -> Result<FailingDoor, ListenFault> {
        Ok(FailingDoor {
            closed: self.closed,
            found_closed: self.found_closed,
            is_out: false,
            faults: 0,
        })
    }

    fn close(&mut self) {
        self.closed = true;
    }

    fn link_back(&mut self, _link: Self::Link) {
        self.is_out = false;
    }

    fn faults(&self) -> u64 {
        self.faults
    }
}
