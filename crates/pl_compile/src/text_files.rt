ghost use Rattle.std.specs.Prelude.{◌≡◌, OnOk, OnErr};
ghost use Rattle.std.specs.FinMap as finite;
ghost use Rattle.pl_step_origins.specs.Below.pl_expand.specs.Below.pl_root.specs.Reading.{parsed};
ghost use Rattle.pl_compile.specs.Reading.{AreOf, read_all};

use pl_base::{ExactCopy, FileKey, Memory, Shared};
use pl_budgets::{Budget, Meter};
use pl_file_sets::SharedFiles;
use pl_step_origins::{Files, MemFiles, Parsed};
use std::alloc::Global;
use std::marker::Model;

/// Texts of files, each of which is read as YAML when it is asked for, and once.
#[derive(Drop)]
pub(crate) struct TextFiles<'a> {
    meter: &'a Meter,
    texts: &'a SharedFiles,
    read: MemFiles,
}

impl<'a> Model for TextFiles<'a> {
    ghost use Rattle.std.specs.Prelude.{List as list, ℕ};
    ghost use Rattle.std.specs.Coded.{coded_list, coded_ℕ};
    ghost use Rattle.std.specs.FinMap as finite;
    ghost use Rattle.pl_base.specs.Files.{file_cmp, coded_file};
    ghost use Rattle.pl_compile.specs.Reading.{AreOf};

    ghost Value = { finite.FinMap file_cmp (list ℕ) };

    ghost coded = { finite.code coded_file (coded_list coded_ℕ) };

    ghost view = { λ files. files.texts.now };

    ghost invariant = { λ files. AreOf files.texts.now files.read };
}

/// Reads a text as YAML and puts it at its key. The meter tells of the files where memory is
/// wanting, and they are as before.
fn put(
    alloc: Global,
    meter: &Meter,
    read: &mut MemFiles,
    key: &FileKey,
    text: &[u8],
) -> Result<(), Memory>
    ensures ok { OnOk result
        (read.new ≡ finite.insert read.old key.now (parsed key.now text.now)) }
    ensures err { OnErr result (read.new ≡ read.old) }
{
    match read.put(alloc, key.copy(alloc)?, text) {
        Ok(()) => Ok(()),
        Err(_) => Err(meter.pass(Budget::Files)),
    }
}

impl<'a> TextFiles<'a> {
    /// The files of these texts, of which none is read yet. The meter tells where no more are read.
    pub(crate) fn new(alloc: Global, meter: &'a Meter, texts: &'a SharedFiles) -> TextFiles<'a>
        ensures { result ≡ texts.now }
    {
        TextFiles {
            meter,
            texts,
            read: MemFiles::new(alloc),
        }
    }
}

impl<'a> Files for TextFiles<'a> {
    ghost files = { λ files. read_all files };

    fn node(&mut self, alloc: Global, key: &FileKey) -> Result<Option<Shared<Parsed>>, Memory> {
        if let Some(file) = self.read.node(alloc, key)? {
            return Ok(Some(file));
        }
        let Some(text) = self.texts.get(key) else {
            return Ok(None);
        };
        put(alloc, self.meter, &mut self.read, key, text.as_slice())?;
        self.read.node(alloc, key)
    }
}
