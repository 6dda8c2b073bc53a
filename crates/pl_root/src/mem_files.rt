ghost use Rattle.std.specs.Prelude.{◌≡◌, OnOk, OnErr, IfOk, Result as Answer};
ghost use Rattle.std.specs.FinMap as finite;
ghost use Rattle.std.specs.Option.{option_copied};
ghost use Rattle.pl_base.specs.declared.node.Node.{Node as Tree};
ghost use Rattle.pl_base.specs.declared.place.Place.{Place as Where};
ghost use Rattle.pl_line.specs.declared.code.YamlCode.{YamlCode as Code};
ghost use Rattle.pl_yaml.specs.Answers.{Answers};
ghost use Rattle.pl_yaml.specs.Spells as yaml;
ghost use Rattle.pl_root.specs.Reading.{read_as, parsed};

use crate::counting::spend_node;
use pl_base::{ExactCopy, FileKey, Memory, Node, Shared};
use pl_calls::{Files, Parsed};
use pl_yaml::{YamlFault, read};
use std::alloc::Global;
use std::collections::BTreeMap;
use std::marker::Model;

/// How many nodes all files have that are read together. More are want of memory.
const MOST_NODES: u32 = 1_000_000;

/// How many bytes all files have that are read together. More are want of memory.
const MOST_BYTES: usize = 8_388_608;

/// Files in memory, each read as YAML once, when it is put, and how many nodes and bytes more may
/// be read.
#[derive(Drop)]
pub struct MemFiles {
    files: BTreeMap<FileKey, Shared<Parsed>>,
    left: u32,
    bytes: usize,
}

impl Model for MemFiles {
    ghost use Rattle.std.specs.FinMap as finite;
    ghost use Rattle.pl_base.specs.Files.{file_cmp, coded_file};
    ghost use Rattle.pl_calls.specs.contracts.files.Parsed as parsed;
    ghost use Rattle.pl_calls.specs.declared.files.Parsed.{Parsed};

    ghost Value = { finite.FinMap file_cmp Parsed };

    ghost coded = { finite.code coded_file parsed.the_row.coded };

    ghost view = { λ set. finite.from_entries set.files.entries };
}

/// What reading gives, or want of memory.
fn read_as(found: Result<Node, YamlFault>) -> Result<Parsed, Memory>
    ensures { (spelled : Answer Tree (Code × Where)) → Answers found spelled → IfOk result
        (λ file. file ≡ read_as spelled) }
{
    match found {
        Ok(node) => Ok(Parsed::Good(node)),
        Err(YamlFault::Refused(code, place)) => { Ok(Parsed::Bad(YamlFault::Refused(code, place))) }
        Err(YamlFault::Memory) => Err(Memory),
    }
}

/// How many nodes more may be read behind a file, of so many.
fn left_behind(file: &Parsed, left: u32) -> Result<u32, Memory> {
    match file {
        Parsed::Good(node) => spend_node(node, left).ok_or(Memory),
        Parsed::Bad(_) => Ok(left),
    }
}

/// How many bytes more may be read behind a text, of so many.
fn bytes_behind(text: &[u8], bytes: usize) -> Result<usize, Memory> {
    bytes.checked_sub(text.len()).ok_or(Memory)
}

/// A text, read as YAML.
fn parsed(alloc: Global, key: &FileKey, text: &[u8]) -> Result<Shared<Parsed>, Memory>
    ensures { IfOk result (λ file. file ≡ parsed key.now text.now) }
{
    let file = read_as(read(alloc, text, key))?;
    Shared::new(alloc, file)
}

impl MemFiles {
    /// No files.
    pub fn new(alloc: Global) -> MemFiles
        ensures { result ≡ finite.empty }
    {
        MemFiles {
            files: BTreeMap::new(alloc),
            left: MOST_NODES,
            bytes: MOST_BYTES,
        }
    }

    /// Reads a text and puts it at its key, in the place of the file that is there. After Memory,
    /// which comes too where more than `MOST_NODES` nodes or `MOST_BYTES` bytes are read together,
    /// the files are as before.
    pub fn put(&mut self, alloc: Global, key: FileKey, text: &[u8]) -> Result<(), Memory>
        ensures ok { OnOk result (self.new ≡ finite.insert self.old key (parsed key text.now)) }
        ensures err { OnErr result (self.new ≡ self.old) }
    {
        self.bytes = bytes_behind(text, self.bytes)?;
        let file = parsed(alloc, &key, text)?;
        self.left = left_behind(&file, self.left)?;
        self.put_parsed(key, file)
    }

    fn put_parsed(&mut self, key: FileKey, file: Shared<Parsed>) -> Result<(), Memory>
        ensures ok { OnOk result (self.new ≡ finite.insert self.old key file) }
        ensures err { OnErr result (self.new ≡ self.old) }
    {
        self.files.insert(key, file)?;
        Ok(())
    }

    fn get(&self, key: &FileKey) -> Option<&Shared<Parsed>>
        ensures { option_copied result ≡ finite.get self.now key.now }
    {
        self.files.get(key)
    }
}

impl Files for MemFiles {
    ghost files = { λ set. set };

    fn node(&mut self, alloc: Global, key: &FileKey) -> Result<Option<Shared<Parsed>>, Memory> {
        match self.get(key) {
            Some(file) => Ok(Some(file.copy(alloc)?)),
            None => Ok(None),
        }
    }
}
