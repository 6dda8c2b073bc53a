use pl_base::{Change, List, Row};
use pl_keeper::{Keeper, KeeperFault};
use pl_store::ProgramStore;
use std::alloc::Global;

/// Where the process keeps its rows: in memory, or in a file. It is a type of its own, so that who
/// runs a command over a process doesn't look through the database's types.
pub struct ProcessStore {
    pub(crate) store: ProgramStore,
}

impl ProcessStore {
    /// Closes it, as `pl_store` does: a database's log is copied into its file.
    pub(crate) fn close(self) -> Result<(), KeeperFault> {
        let ProcessStore { store } = self;
        store.close()
    }
}

impl Drop for ProcessStore {
    fn drop(self) {
        let ProcessStore { store: _store } = self;
    }
}

impl Keeper for ProcessStore {
    ghost held = { λ process. ⟦<ProgramStore as Keeper>⟧.held process.store };

    ghost faults = { λ process. ⟦<ProgramStore as Keeper>⟧.faults process.store };

    fn apply(&mut self, alloc: Global, changes: &List<Change>) -> Result<(), KeeperFault> {
        self.store.apply(alloc, changes)
    }

    fn rows(&mut self, alloc: Global) -> Result<List<Row>, KeeperFault> {
        self.store.rows(alloc)
    }

    fn faults(&self) -> u64 {
        self.store.faults()
    }
}
