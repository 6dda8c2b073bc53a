//! Stores over files.

ghost use Rattle.std.specs.Prelude.{◌≡◌, IfOk};
ghost use Rattle.pl_store.specs.Stores.{faults_of};

use crate::looking::looked;
use crate::refusal::{Refusal, cause_of};
use crate::store::RowStore;
use pl_keeper::KeeperFault;
use sqlite::{Connection, Error, ErrorCode, File, FileStore};
use sqlite_disk::Disk;

/// Where the program keeps its rows: in memory, or in a file.
pub type ProgramStore = RowStore<FileStore<File>>;

/// Why files couldn't be opened: what the database says, and what a look at the path tells where it
/// says no more than that.
fn unopened(rt: &HostRuntime, path: &str, error: Error) -> Refusal {
    match error {
        Error::SqliteFailure(ErrorCode::CannotOpen) => looked(rt, path),
        other => cause_of(other),
    }
}

impl RowStore<FileStore<File>> {
    /// The rows in the database at a path and the log beside it, whose name is the path and `-wal`.
    /// A file that is missing or empty becomes a database. It is locked for other programs until it
    /// is closed or dropped. What isn't the service's is refused and stays as it was, but that an
    /// empty log may be left beside it.
    pub fn open(rt: &HostRuntime, path: &str) -> Result<ProgramStore, Refusal>
        ensures quiet { IfOk result (λ store. faults_of store ≡ 0) }
    {
        match Connection::open(rt, path) {
            Ok(connection) => match RowStore::adopt(connection) {
                Ok(store) => Ok(store),
                Err((refusal, _connection)) => Err(refusal),
            },
            Err(error) => Err(unopened(rt, path, error)),
        }
    }
}

impl<D: Disk + Drop> RowStore<FileStore<D>> {
    /// Rows in memory end with it. Of a database it copies the log into the file, and closes both;
    /// the log stays, empty. Where that fails the rows stay in both files together, and the next
    /// opening finds them. Its fault is Memory where memory was wanting, and else Failed.
    pub fn close(self) -> Result<(), KeeperFault> {
        let Some(keeper) = self.into_database() else {
            return Ok(());
        };
        match keeper.into_connection().close() {
            Ok(()) => Ok(()),
            Err(error) => Err(cause_of(error).fault()),
        }
    }
}
