ghost use Rattle.std.specs.Prelude.{◌≡◌, None, IsSome};
ghost use Rattle.pl_listener.specs.Handles.{Handle, Accepts, Shares, handed_back, shut};
ghost use Rattle.pl_sessions.specs.Told.{told};

use crate::fault::ListenFault;
use pl_base::Link;
use std::alloc::Global;

/// One handle of a door through which links come. Each worker has a handle of its own, which has
/// one link out at most: that is handed back before the next one is given.
pub trait Listener {
    /// A link, which goes with its worker into a thread. Whoever has it hands it back: it can't be
    /// dropped.
    type Link: Link + Send;

    /// What the handle tells.
    ghost tells: { Self → Handle };

    /// Waits for the next link, and gives it with the room that handing it back needs. None comes
    /// once the door is closed: the handle tells that it found it so, and gives None from then on,
    /// as one does that closed the door.
    fn accept(&mut self, alloc: Global) -> Result<Option<Self::Link>, ListenFault>
        requires { (tells self.old).out ≡ None }
        ensures { Accepts (told Self.Link.Link) (tells self.old) result (tells self.new) };

    /// Gives another handle of the same door, with counts of its own.
    fn share(&mut self, alloc: Global) -> Result<Self, ListenFault>
        ensures { Shares tells (tells self.old) result (tells self.new) };

    /// Closes the door, for all of its handles.
    fn close(&mut self)
        ensures { tells self.new ≡ shut (tells self.old) };

    /// Ends the link that is out. It takes no memory.
    fn link_back(&mut self, link: Self::Link)
        requires { IsSome (tells self.old).out }
        ensures { tells self.new ≡ handed_back (tells self.old) (told Self.Link.Link link) };

    /// How many calls of this handle failed.
    fn faults(&self) -> u64
        ensures { result ≡ (tells self.now).faults };
}
