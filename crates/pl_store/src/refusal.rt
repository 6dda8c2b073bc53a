ghost use Rattle.std.specs.Prelude.{◌≡◌};
ghost use Rattle.pl_store.specs.Refusals.{cause_of, fault_of, words_of};

use pl_keeper::KeeperFault;
use sqlite::{Error, ErrorCode};
use std::fmt;

/// Why the rows at a path weren't taken over.
#[derive(Clone, Copy, Debug, PartialEq, Eq)]
pub enum Refusal {
    /// The path is empty, `:memory:` or a URI.
    NoName,
    /// The folder of the path is missing.
    NoFolder,
    /// A folder has this path.
    Folder,
    /// What has this path is no regular file with one name: a device, a link that leads nowhere.
    NoPlainFile,
    /// This process may not write the file, its log or their folder.
    NoRight,
    /// What has the name of the file's log is no regular file.
    Log,
    /// Another program stopped inside a transaction, and left its journal beside the file.
    Journal,
    /// Another program, or another service, has the file open.
    Locked,
    /// The file is no database, or one whose rows break its schema.
    NoDatabase,
    /// The database is damaged.
    Damaged,
    /// The database is another program's.
    OtherDatabase,
    /// The rows are of another version of the service.
    OtherVersion,
    /// Its table has the name of the service's, and other columns, keys or rules.
    OtherColumns,
    /// It holds something beside the service's table.
    More,
    /// The disk is full.
    Full,
    /// A read or a write of the file failed.
    Disk,
    /// Memory was wanting.
    Memory,
    /// The database was refused otherwise.
    Otherwise,
}

impl Refusal {
    /// As a keeper's fault: Memory where memory was wanting, and else Failed.
    pub fn fault(self) -> KeeperFault
        ensures { result ≡ fault_of self }
    {
        match self {
            Refusal::Memory => KeeperFault::Memory,
            _ => KeeperFault::Failed,
        }
    }

    /// What people are told.
    pub fn words(self) -> &'static str
        ensures { result.now ≡ words_of self }
    {
        match self {
            Refusal::NoName => "this is no path of a file",
            Refusal::NoFolder => "its folder is missing",
            Refusal::Folder => "it is a folder",
            Refusal::NoPlainFile => "it is no regular file with one name",
            Refusal::NoRight => "there is no right to write it, its log or their folder",
            Refusal::Log => "what has the name of its log is no regular file",
            Refusal::Journal => "another program's journal stands beside it",
            Refusal::Locked => "another program has it open",
            Refusal::NoDatabase => "it is no database, or its rows break its schema",
            Refusal::Damaged => "the database is damaged",
            Refusal::OtherDatabase => "it is another program's database",
            Refusal::OtherVersion => "its rows are of another version of the service",
            Refusal::OtherColumns =>
                "its table has other columns, keys or rules than the service's",
            Refusal::More => "it holds something beside the service's table",
            Refusal::Full => "the disk is full",
            Refusal::Disk => "a read or a write of it failed",
            Refusal::Memory => "memory was wanting",
            Refusal::Otherwise => "it can't be opened as a database",
        }
    }
}

impl fmt::Display for Refusal {
    fn fmt<W: fmt::Write>(&self, f: &mut fmt::Formatter<W>) -> fmt::Result {
        f.write_str(self.words())
    }
}

/// What an error of the database is, as a refusal.
pub(crate) fn cause_of(error: Error) -> Refusal
    ensures { result ≡ cause_of error }
{
    match error {
        Error::SqliteFailure(ErrorCode::OutOfMemory) => Refusal::Memory,
        Error::SqliteFailure(ErrorCode::DatabaseBusy) => Refusal::Locked,
        Error::SqliteFailure(ErrorCode::NotADatabase) => Refusal::NoDatabase,
        Error::SqliteFailure(ErrorCode::DatabaseCorrupt) => Refusal::Damaged,
        Error::SqliteFailure(ErrorCode::DiskFull) => Refusal::Full,
        Error::SqliteFailure(ErrorCode::SystemIoFailure | ErrorCode::Closed) => Refusal::Disk,
        _ => Refusal::Otherwise,
    }
}
