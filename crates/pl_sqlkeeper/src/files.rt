//! Keepers over files.

ghost use Rattle.std.specs.Prelude.{◌≡◌, IfOk};

use crate::keeper::SqlKeeper;
use crate::opening::Unopened;
use pl_base::Text;
use pl_keeper::KeeperFault;
use sqlite::{Connection, File, FileStore};
use std::rt::HostRuntime;

/// A keeper over a file.
pub type FileKeeper = SqlKeeper<FileStore<File>>;

impl SqlKeeper<FileStore<File>> {
    /// A keeper over the database at a path and the log beside it, whose name is the path and
    /// `-wal`. A file that is missing or empty becomes a database. It holds the file locked until
    /// it is closed or dropped. A file that isn't the service's is refused with the reason, and
    /// stays as it was; an empty log may be left beside it.
    pub fn open_or_why(rt: &HostRuntime, path: &str) -> Result<FileKeeper, Unopened>
        ensures quiet { IfOk result (λ keeper. keeper.faults ≡ 0) }
    {
        let connection = Connection::open(rt, path)?;
        match SqlKeeper::adopt_or_why(connection) {
            Ok(keeper) => Ok(keeper),
            Err((why, _connection)) => Err(why),
        }
    }

    /// As `open_or_why`, with a keeper's fault for the reason: Memory where memory was wanting, and
    /// else Failed.
    pub fn open(rt: &HostRuntime, path: &Text) -> Result<FileKeeper, KeeperFault>
        ensures quiet { IfOk result (λ keeper. keeper.faults ≡ 0) }
    {
        match SqlKeeper::open_or_why(rt, path.as_str()) {
            Ok(keeper) => Ok(keeper),
            Err(why) => Err(why.fault()),
        }
    }

    /// Copies the log into the database file, and closes both. The log stays, empty. Where it fails
    /// the rows stay in both files together, and the next opening finds them. Its fault is Memory
    /// where memory was wanting, and else Failed.
    pub fn close(self) -> Result<(), KeeperFault> {
        match self.into_connection().close() {
            Ok(()) => Ok(()),
            Err(error) => Err(Unopened::Database(error).fault()),
        }
    }
}
