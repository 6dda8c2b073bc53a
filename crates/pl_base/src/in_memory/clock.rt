ghost use Rattle.std.specs.Prelude.{◌≡◌, ◌≤◌, ◌+◌, Some, min};

use crate::clock::Clock;
use crate::moment::{LAST_MOMENT, Moment};

/// A clock in memory that goes on by a second at each call.
#[derive(Debug, Drop)]
pub struct MemClock {
    next: Moment,
}

impl MemClock {
    /// A clock whose first call tells this moment, or the last one where it lies behind that.
    pub fn new(first: Moment) -> MemClock
        ensures { result.next ≡ min first 4102444799 }
    {
        MemClock {
            next: first.min(LAST_MOMENT),
        }
    }
}

impl Clock for MemClock {
    ghost coming = { λ clock. Some (λ call. min (clock.next + call) 4102444799) };

    fn now(&mut self) -> Moment {
        let now = self.next.min(LAST_MOMENT);
        self.next = (now + 1).min(LAST_MOMENT);
        now
    }
}
