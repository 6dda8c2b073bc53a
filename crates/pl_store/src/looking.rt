//! Why files at a path couldn't be opened, by a look at them. What a look makes an opening makes
//! too: the file or its log, where they are missing.

use crate::refusal::Refusal;
use std::fs::{self, Metadata, OpenOptions};
use std::io::{self, ErrorKind};
use std::os::unix::fs::MetadataExt;

/// Why a store at a path couldn't be opened, as far as a look at the path tells.
pub(crate) fn looked(rt: &HostRuntime, path: &str) -> Refusal {
    if path.is_empty() || path == ":memory:" || path.starts_with("file:") {
        return Refusal::NoName;
    }
    match refusal_at(rt, path) {
        Some(refusal) => refusal,
        None => beside(rt, path),
    }
}

/// Why the log or a journal beside a file keeps it from being opened.
fn beside(rt: &HostRuntime, path: &str) -> Refusal {
    let Ok(log) = format!(in rt.alloc(); "{path}-wal") else {
        return Refusal::Memory;
    };
    let Ok(journal) = format!(in rt.alloc(); "{path}-journal") else {
        return Refusal::Memory;
    };
    match refusal_at(rt, log.as_str()) {
        Some(Refusal::Folder | Refusal::NoPlainFile) => Refusal::Log,
        Some(refusal) => refusal,
        None if fs::symlink_metadata(rt, journal.as_str()).is_ok() => Refusal::Journal,
        None => Refusal::Otherwise,
    }
}

/// Why a file can't be opened for writing, if it can't.
fn refusal_at(rt: &HostRuntime, path: &str) -> Option<Refusal> {
    match fs::metadata(rt, path) {
        Ok(found) => match refusal_of(&found) {
            None => fault_of(opened(rt, path, false)),
            refusal => refusal,
        },
        Err(fault) if fault.kind() == ErrorKind::NotFound => fault_of(opened(rt, path, true)),
        Err(fault) => Some(refusal_by(fault.kind())),
    }
}

/// Opens a file, or makes it, and closes it.
fn opened(rt: &HostRuntime, path: &str, is_new: bool) -> io::Result<()> {
    OpenOptions::new()
        .read(true)
        .write(true)
        .create_new(is_new)
        .open(rt, path)?;
    Ok(())
}

/// Why what stands at a path isn't taken for a file of a store, if it isn't.
fn refusal_of(found: &Metadata) -> Option<Refusal> {
    if found.is_dir() {
        return Some(Refusal::Folder);
    }
    if found.is_file() && found.nlink() == 1 {
        None
    } else {
        Some(Refusal::NoPlainFile)
    }
}

/// What a failed call of the system is, as a refusal.
fn fault_of(answer: io::Result<()>) -> Option<Refusal> {
    match answer {
        Ok(()) => None,
        Err(fault) => Some(refusal_by(fault.kind())),
    }
}

/// What an error of the system is, as a refusal.
fn refusal_by(kind: ErrorKind) -> Refusal {
    match kind {
        ErrorKind::NotFound | ErrorKind::NotADirectory => Refusal::NoFolder,
        ErrorKind::IsADirectory => Refusal::Folder,
        ErrorKind::AlreadyExists => Refusal::NoPlainFile,
        ErrorKind::PermissionDenied | ErrorKind::ReadOnlyFilesystem => Refusal::NoRight,
        ErrorKind::StorageFull | ErrorKind::QuotaExceeded => Refusal::Full,
        ErrorKind::InvalidInput | ErrorKind::InvalidFilename => Refusal::NoName,
        ErrorKind::OutOfMemory => Refusal::Memory,
        _ => Refusal::Otherwise,
    }
}
