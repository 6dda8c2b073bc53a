ghost use Rattle.std.specs.Prelude.{◌≡◌, OnOk, OnErr};
ghost use Rattle.std.specs.FinMap as finite;
ghost use Rattle.std.specs.Option.{option_copied};
ghost use Rattle.pl_file_sets.specs.Sets.{FilesOf, FilesOf-prop};

use crate::leaf::text_in;
use crate::spread::spread_of;
use crate::trie::{FIRST_BIT, Trie, found, with, without};
use pl_base::{Bytes, ExactCopy, FileKey, List, Memory, Shared};
use pl_requests::FileText;
use std::alloc::Global;
use std::marker::Model;

/// File texts by their keys, which contracts see as a finite map. Copies share their files, and a
/// set shares with the one that it was made of what they have in common: to copy a set takes the
/// same little time and memory whatever files there are, and to put or remove a file takes some
/// twenty shared handles at most, as long as few keys' numbers agree in all bits that part files.
#[derive(Debug, Drop)]
pub struct SharedFiles {
    trie: Trie,
    ghost files: { FilesOf trie } by { FilesOf-prop trie },
}

impl Model for SharedFiles {
    ghost use Rattle.std.specs.Prelude.{List as list, ℕ};
    ghost use Rattle.std.specs.Coded.{coded_list, coded_ℕ};
    ghost use Rattle.std.specs.FinMap as finite;
    ghost use Rattle.pl_base.specs.Files.{file_cmp, coded_file};

    ghost Value = { finite.FinMap file_cmp (list ℕ) };

    ghost coded = { finite.code coded_file (coded_list coded_ℕ) };

    ghost view = { λ set. set.files.0 };
}

impl SharedFiles {
    /// No files. It takes no memory until the first file comes.
    pub fn new(alloc: Global) -> SharedFiles
        ensures { result ≡ finite.empty }
    {
        SharedFiles {
            trie: Trie::Leaf(List::new(alloc)),
        }
    }

    /// The text at a key, or None where there is none. It takes no memory.
    pub fn get(&self, key: &FileKey) -> Option<&Bytes>
        ensures { option_copied result ≡ finite.get self.now key.now }
    {
        match &self.trie {
            Trie::Leaf(files) => text_in(files.as_slice(), key),
            Trie::Fork(_low, _high) => found(&self.trie, FIRST_BIT, spread_of(key), key),
        }
    }

    /// Puts a file, which it shares, in the place of the one of its key. After Memory the files are
    /// as before.
    pub fn put(&mut self, alloc: Global, file: Shared<FileText>) -> Result<(), Memory>
        ensures ok { OnOk result (self.new ≡ finite.insert self.old file.key file.text) }
        ensures err { OnErr result (self.new ≡ self.old) }
    {
        let spread = spread_of(&file.key);
        self.trie = with(alloc, &self.trie, FIRST_BIT, spread, file)?;
        Ok(())
    }

    /// Puts a text at a key, in the place of the one that is there. After Memory the files are as
    /// before.
    pub fn put_text(&mut self, alloc: Global, key: FileKey, text: Bytes) -> Result<(), Memory>
        ensures ok { OnOk result (self.new ≡ finite.insert self.old key text) }
        ensures err { OnErr result (self.new ≡ self.old) }
    {
        let file = Shared::new(alloc, FileText { key, text })?;
        self.put(alloc, file)
    }

    /// Removes the file of a key, where there is one. After Memory the files are as before.
    pub fn remove(&mut self, alloc: Global, key: &FileKey) -> Result<(), Memory>
        ensures ok { OnOk result (self.new ≡ finite.remove self.old key.now) }
        ensures err { OnErr result (self.new ≡ self.old) }
    {
        self.trie = without(alloc, &self.trie, FIRST_BIT, spread_of(key), key)?;
        Ok(())
    }
}

/// The copy shares all files, in constant time.
impl ExactCopy for SharedFiles {
    fn copy(&self, alloc: Global) -> Result<SharedFiles, Memory> {
        let trie = self.trie.copy(alloc)?;
        Ok(SharedFiles { trie })
    }
}
