//! All files as they stand.

ghost use Rattle.std.specs.Prelude.{◌≡◌, ◌<◌, [], length, slice_get, OnOk, OnErr};
ghost use Rattle.std.specs.FinMap as finite;
ghost use Rattle.pl_snapshots.specs.Gathering.{IsGathered, with_event, with_fact};
ghost use Rattle.pl_snapshots.specs.Snapshots.{AreFiles};

use pl_base::{ExactCopy, Memory};
use pl_file_sets::SharedFiles;
use pl_journal::{Event, Journal};
use std::alloc::Global;

/// All files as the first so many facts leave them, with which they share their texts.
#[derive(Drop)]
pub struct Gathered {
    pub files: SharedFiles,
    pub count: usize,
}

/// Puts or removes the file that a fact put or removed. After Memory the files are as before.
fn take_event(alloc: Global, files: &mut SharedFiles, event: &Event) -> Result<(), Memory>
    ensures ok { OnOk result (files.new ≡ with_event event.now files.old) }
    ensures err { OnErr result (files.new ≡ files.old) }
{
    match event {
        Event::FilePut(file) => files.put(alloc, file.copy(alloc)?),
        Event::FileRemoved(key) => files.remove(alloc, key),
        _ => Ok(()),
    }
}

/// Puts or removes the file that the fact at a place put or removed. After Memory the files are as
/// before.
fn take_fact(
    alloc: Global,
    journal: &Journal,
    files: &mut SharedFiles,
    at: usize,
) -> Result<(), Memory>
    ensures ok { OnOk result
        (files.new ≡ with_fact (slice_get journal.now.facts at) files.old) }
    ensures err { OnErr result (files.new ≡ files.old) }
{
    match journal.fact(at) {
        Some(fact) => take_event(alloc, files, &fact.event),
        None => Ok(()),
    }
}

impl Gathered {
    /// No files, as no fact leaves them. It takes no memory.
    pub fn new(alloc: Global) -> Gathered
        ensures { result ≡ record { files = finite.empty; count = 0 } }
    {
        Gathered {
            files: SharedFiles::new(alloc),
            count: 0,
        }
    }

    /// Looks at the facts behind those that were looked at, so that the files are those of all
    /// facts. Memory where memory is wanting; then they are those of some facts still.
    pub fn catch_up(&mut self, alloc: Global, journal: &Journal) -> Result<(), Memory>
        requires { IsGathered journal.now.facts self.old }
        ensures gathered { IsGathered journal.now.facts self.new }
        ensures all { OnOk result (AreFiles journal.now.facts self.new.files) }
    {
        for at in self.count..journal.len() {
            take_fact(alloc, journal, &mut self.files, at)?;
            self.count = at + 1;
        }
        Ok(())
    }
}

impl ExactCopy for Gathered {
    fn copy(&self, alloc: Global) -> Result<Gathered, Memory> {
        let files = self.files.copy(alloc)?;
        Ok(Gathered {
            files,
            count: self.count,
        })
    }
}
