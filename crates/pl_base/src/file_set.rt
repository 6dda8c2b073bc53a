ghost use Rattle.std.specs.Prelude.{◌≡◌, OnOk, OnErr};
ghost use Rattle.std.specs.Option.{option_copied};
ghost use Rattle.std.specs.FinMap as map;

use crate::list::Bytes;
use crate::memory::Memory;
use crate::place::FileKey;
use std::alloc::Global;
use std::collections::BTreeMap;
use std::marker::Model;

/// File texts by their keys, which contracts see as a finite map.
#[derive(Debug, Drop)]
pub struct FileSet {
    texts: BTreeMap<FileKey, Bytes>,
}

impl Model for FileSet {
    ghost use Rattle.std.specs.Prelude.{List as list, ℕ};
    ghost use Rattle.std.specs.Coded.{coded_list, coded_ℕ};
    ghost use Rattle.std.specs.FinMap as map;
    ghost use Rattle.pl_base.specs.Files.{file_cmp, coded_file};

    ghost Value = { map.FinMap file_cmp (list ℕ) };

    ghost coded = { map.code coded_file (coded_list coded_ℕ) };

    ghost view = { λ set. map.from_entries set.texts.entries };
}

impl FileSet {
    /// No files. It takes no memory until the first file comes.
    pub fn new(alloc: Global) -> FileSet
        ensures { result ≡ map.empty }
    {
        FileSet {
            texts: BTreeMap::new(alloc),
        }
    }

    /// Puts a file's text at its key, in the place of the text that is there. After Memory the
    /// files are as before, and the text is dropped.
    pub fn put(&mut self, key: FileKey, text: Bytes) -> Result<(), Memory>
        ensures ok { OnOk result (self.new ≡ map.insert self.old key text) }
        ensures err { OnErr result (self.new ≡ self.old) }
    {
        self.texts.insert(key, text)?;
        Ok(())
    }

    /// The text at a key, or None where there is none. It takes no memory.
    pub fn get(&self, key: &FileKey) -> Option<&Bytes>
        ensures { option_copied result ≡ map.get self.now key.now }
    {
        self.texts.get(key)
    }
}
