ghost use Rattle.std.specs.Prelude.{◌≡◌, ◌<◌, None, option_copied};
ghost use Rattle.std.specs.Borrow.{sem};
ghost use Rattle.pl_base.specs.Streams.{with_end};
ghost use Rattle.pl_base.specs.declared.paired.Paired.{Paired};
ghost use Rattle.pl_listener.specs.Handles.{Shares};
ghost use Rattle.pl_outfit.specs.Doors.{ended, shared_by};
ghost use Rattle.pl_outfit.specs.Outfit.{GivesDoor, GivesStore, LendsEnds, View};
ghost use Rattle.pl_outfit.specs.Stores.{handed_back};

use pl_base::{Clock, Paired, Sink, Source, Text};
use pl_keeper::{Keeper, KeeperFault};
use pl_listener::{ListenFault, Listener};
use std::alloc::Global;

/// What the program has of the outside.
pub trait Outfit {
    type In: Source;

    type Out: Sink;

    type Time: Clock + Drop + Send;

    type Store: Keeper + Drop + Send;

    type Door: Listener + Drop + Send;

    /// What it is made of.
    ghost view: { Self → View Self.In Self.Out };

    /// The outfit with other ends.
    ghost with_ends: { Self → Paired Self.In Self.Out → Self };

    /// Lends the source and the sink.
    fn ends(&mut self) -> &mut Paired<Self::In, Self::Out>
        ensures* lends { sem 𝓛
            (LendsEnds Self.row Self.In.row Self.Out.row with_ends self.entry result) }
        ensures there { result.now ≡ (view self.old).ends };

    /// Gives a clock.
    fn clock(&mut self) -> Self::Time
        ensures coming { Self.Time.coming result ≡ (view self.old).coming }
        ensures same { view self.new ≡ view self.old };

    /// Gives a store of the rows at a path, or without one a store in memory that has no row yet.
    /// No call of it was made. Where none can be given, people are told why.
    fn keeper(&mut self, alloc: Global, path: Option<&Text>) -> Result<Self::Store, KeeperFault>
        ensures { GivesStore Self.Store.held Self.Store.faults (option_copied path.entry)
            (view self.old) result (view self.new) };

    /// Takes a store back. It takes no memory.
    fn keeper_back(&mut self, store: Self::Store)
        ensures { view self.new ≡ record (view self.old) {
          stores = handed_back (Self.Store.held store) (Self.Store.faults store)
              (view self.old).stores;
        } };

    /// Opens a door at an address, and gives its first handle; people are told where it listens, or
    /// why it doesn't.
    fn door(&mut self, alloc: Global, address: &Text) -> Result<Self::Door, ListenFault>
        ensures { GivesDoor Self.Door.tells address.now (view self.old) result (view self.new) };

    /// Gives one more handle of the door, with counts of its own, by one that is out: there are four
    /// at most. A call that fails is counted by the handle that is there.
    fn share(&mut self, alloc: Global, door: &mut Self::Door) -> Result<Self::Door, ListenFault>
        requires few { (view self.old).doors.out < 4 }
        ensures shares { Shares Self.Door.tells (Self.Door.tells door.old) result
            (Self.Door.tells door.new) }
        ensures out { view self.new ≡ record (view self.old) {
          doors = shared_by result (view self.old).doors;
        } };

    /// Ends a handle that is out and has no link out. It takes no memory.
    fn door_back(&mut self, door: Self::Door)
        requires none_out { (Self.Door.tells door).out ≡ None }
        requires out { 0 < (view self.old).doors.out }
        ensures { view self.new ≡ record (view self.old) {
          doors = ended (Self.Door.tells door) (view self.old).doors;
        } };

    /// Tells people a line, where there are any: what fails of that is passed over.
    fn tell(&mut self, line: &str)
        ensures { view self.new
            ≡ record (view self.old) { people = with_end (view self.old).people line.now } };

    /// How often a store couldn't be given, or one was handed back of which a call had failed.
    fn keeper_faults(&self) -> u64
        ensures { result ≡ (view self.now).stores.faults };

    /// How often a door couldn't be opened, or a handle was ended of which a call had failed.
    fn door_faults(&self) -> u64
        ensures { result ≡ (view self.now).doors.faults };

    /// What is put in the place of the ends is the ends, and nothing else changes.
    ghost ends_alone: { (outfit : Self) (ends : Paired Self.In Self.Out)
        → view (with_ends outfit ends) ≡ record (view outfit) { ends = ends } };
}
