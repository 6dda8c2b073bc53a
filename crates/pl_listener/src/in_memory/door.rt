ghost use Rattle.std.specs.Prelude.{◌≡◌, IfSome, option_copied};
ghost use Rattle.pl_listener.specs.Handles.{IsThere};

use pl_base::List;
use std::sync::atomic::{AtomicUsize, Ordering};
use std::sync::{OnceLock, OnceToken};

/// A door in memory, to which visitors come in order. Its handles borrow it, so threads share it.
#[derive(Drop)]
pub struct MemDoor<V> {
    pub visitors: List<V>,
    next: AtomicUsize,
    // Written once the door is closed.
    closed: OnceLock<()>,
}

impl<V> MemDoor<V> {
    /// An open door to which these visitors come.
    pub fn new(visitors: List<V>) -> MemDoor<V>
        ensures { result.visitors ≡ visitors }
    {
        MemDoor {
            visitors,
            next: AtomicUsize::new(0),
            closed: OnceLock::new(),
        }
    }

    /// The next one who comes, or None where all have come. Nobody comes twice.
    pub(crate) fn next(&self) -> Option<&V>
        ensures { IsThere (option_copied result) self.now.visitors }
    {
        self.visitors.get(self.next.fetch_add(1, Ordering::SeqCst))
    }

    /// What shows that the door was closed, or None.
    pub(crate) fn closing(&self) -> Option<OnceToken<'_, ()>>
        ensures { IfSome result (λ shows. shows.of ≡ self.now.closed.id) }
    {
        self.closed.witness()
    }

    /// Closes the door.
    pub(crate) fn close(&self) {
        let _ = self.closed.try_set(());
    }
}
