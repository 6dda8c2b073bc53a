ghost use Rattle.std.specs.Prelude.{◌≡◌};
ghost use Rattle.pl_worker.specs.Ends.{end_of, has_failed, lacks_memory, one_of, was_stopped};

/// Why a worker ended.
#[derive(Clone, Copy, Debug, PartialEq, Eq)]
pub enum Why {
    /// A link ended with an accepted shutdown. The worker closed the door.
    Stopped,
    /// The door was closed.
    Closed,
    /// The listener failed. The worker closed the door.
    Failed,
    /// Memory was wanting for a link. The worker closed the door.
    Memory,
}

/// Why each of four workers ended.
#[derive(Clone, Copy, Debug, PartialEq, Eq)]
pub struct Reasons {
    pub first: Why,
    pub second: Why,
    pub third: Why,
    pub fourth: Why,
}

/// Why four workers ended and aren't started again.
#[derive(Clone, Copy, Debug, PartialEq, Eq)]
pub enum End {
    /// A link ended with an accepted shutdown.
    Stopped,
    /// The listener failed, and no link ended with an accepted shutdown.
    Failed,
    /// Memory was wanting for a link, the listener didn't fail, and no link ended with an accepted
    /// shutdown.
    Memory,
}

impl Reasons {
    /// Why the four aren't started again; or None, where each of them found the door closed.
    pub fn end(&self) -> Option<End>
        ensures { result ≡ end_of self.now }
    {
        if self.one_was_stopped() {
            Some(End::Stopped)
        } else if self.one_has_failed() {
            Some(End::Failed)
        } else if self.one_lacks_memory() {
            Some(End::Memory)
        } else {
            None
        }
    }

    fn one_was_stopped(&self) -> bool
        ensures { result ≡ one_of was_stopped self.now }
    {
        was_stopped(self.first)
            || was_stopped(self.second)
            || was_stopped(self.third)
            || was_stopped(self.fourth)
    }

    fn one_has_failed(&self) -> bool
        ensures { result ≡ one_of has_failed self.now }
    {
        has_failed(self.first)
            || has_failed(self.second)
            || has_failed(self.third)
            || has_failed(self.fourth)
    }

    fn one_lacks_memory(&self) -> bool
        ensures { result ≡ one_of lacks_memory self.now }
    {
        lacks_memory(self.first)
            || lacks_memory(self.second)
            || lacks_memory(self.third)
            || lacks_memory(self.fourth)
    }
}

fn was_stopped(reason: Why) -> bool
    ensures { result ≡ was_stopped reason }
{
    match reason {
        Why::Stopped => true,
        Why::Closed | Why::Failed | Why::Memory => false,
    }
}

fn has_failed(reason: Why) -> bool
    ensures { result ≡ has_failed reason }
{
    match reason {
        Why::Failed => true,
        Why::Stopped | Why::Closed | Why::Memory => false,
    }
}

fn lacks_memory(reason: Why) -> bool
    ensures { result ≡ lacks_memory reason }
{
    match reason {
        Why::Memory => true,
        Why::Stopped | Why::Closed | Why::Failed => false,
    }
}
