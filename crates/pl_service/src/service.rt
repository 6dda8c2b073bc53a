ghost use Rattle.std.specs.Prelude.{[]};
ghost use Rattle.pl_service.specs.Kept.{IsKeptAt};

use pl_keeper::Keeper;
use pl_opening::{Core, Entry};
use pl_turn::Standing;

/// A service, as seats take it in turns: the core of what has happened, and the keeper of its rows.
/// Where the keeper tells its rows, these are at each time those of the service.
#[derive(Drop)]
pub struct Service<K: Keeper + Drop> {
    pub core: Core,
    pub keeper: K,
    pub ghost kept: { ∥ IsKeptAt core.opening core.entries (K.held keeper) ∥₁ },
}

impl<K: Keeper + Drop> Standing for Service<K> {
    type Entry = Entry;

    /// The service as it was when it was opened.
    type Label = Core;

    ghost history = { λ service. service.core.entries };

    ghost label = { λ service. record {
      opening = service.core.opening;
      entries = [];
      pending = [];
    } };

    ghost names = { λ entry. entry.seat };

    /// The faults of the keeper.
    ghost counted = { λ service. K.faults service.keeper };

    fn count(&self) -> u64 {
        self.keeper.faults()
    }
}
