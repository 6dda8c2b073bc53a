//! Files by the bits of their keys' numbers.

ghost use Rattle.std.specs.Prelude.{◌≡◌, ◌<◌, None, Some, IfOk};
ghost use Rattle.std.specs.Option.{option_copied};
ghost use Rattle.pl_file_sets.specs.Spread.{spread_of};
ghost use Rattle.pl_file_sets.specs.Tries.{Tells, found, text_in, told_but};

use crate::leaf::{others, side, text_in};
use crate::spread::is_high;
use pl_base::{Bytes, ExactCopy, FileKey, List, Memory, Shared};
use pl_requests::FileText;
use std::alloc::Global;

/// How many files a leaf has at most, where bits are left that part them.
const MOST_IN_LEAF: usize = 8;

/// The bit that the first fork parts by.
pub(crate) const FIRST_BIT: u32 = 31;

/// The last bit that parts files. So a trie is no deeper than there are bits from the first to this
/// one, whatever keys there are.
const LAST_BIT: u32 = 8;

/// A few files, or those whose keys' numbers lack a bit and those whose have it.
#[cycle(trie)]
#[derive(Debug, Drop)]
pub(crate) enum Trie {
    Leaf(List<Shared<FileText>>),
    Fork(Shared<Trie>, Shared<Trie>),
}

/// The text of a key's file, or None where there is none.
pub(crate) fn found<'a>(trie: &'a Trie, bit: u32, spread: u32, key: &FileKey) -> Option<&'a Bytes>
    requires bit { bit < 32 }
    requires spread { spread ≡ spread_of key.now }
    ensures { option_copied result ≡ found trie.now bit key.now }
{
    match trie {
        Trie::Leaf(files) => text_in(files.as_slice(), key),
        Trie::Fork(low, high) => {
            if is_high(bit, spread) {
                found(high, bit.saturating_sub(1), spread, key)
            } else {
                found(low, bit.saturating_sub(1), spread, key)
            }
        }
    }
}

/// A leaf of these files, or a fork of them where they are too many for a leaf.
fn parted(alloc: Global, files: List<Shared<FileText>>, bit: u32) -> Result<Trie, Memory>
    requires { bit < 32 }
    ensures { IfOk result (λ trie. Tells bit trie (λ key. text_in key files)) }
{
    if files.len() <= MOST_IN_LEAF || bit < LAST_BIT {
        return Ok(Trie::Leaf(files));
    }
    let low = side(alloc, files.as_slice(), bit, false)?;
    let high = side(alloc, files.as_slice(), bit, true)?;
    let low = Shared::new(alloc, Trie::Leaf(low))?;
    let high = Shared::new(alloc, Trie::Leaf(high))?;
    Ok(Trie::Fork(low, high))
}

/// A leaf with a file in the place of the one of its key, or behind the others.
fn leaf_with(
    alloc: Global,
    files: &List<Shared<FileText>>,
    bit: u32,
    file: Shared<FileText>,
) -> Result<Trie, Memory>
    requires { bit < 32 }
    ensures { IfOk result (λ trie.
        Tells bit trie (told_but file.key (Some file.text) (λ key. text_in key files.now))) }
{
    let mut more = others(alloc, files.as_slice(), &file.key)?;
    more.push(file)?;
    parted(alloc, more, bit)
}

/// The trie with a file, in the place of the one of its key where there is one.
pub(crate) fn with(
    alloc: Global,
    trie: &Trie,
    bit: u32,
    spread: u32,
    file: Shared<FileText>,
) -> Result<Trie, Memory>
    requires bit { bit < 32 }
    requires spread { spread ≡ spread_of file.key }
    ensures { IfOk result (λ new.
        Tells bit new (told_but file.key (Some file.text) (found trie.now bit))) }
{
    match trie {
        Trie::Leaf(files) => leaf_with(alloc, files, bit, file),
        Trie::Fork(low, high) => {
            if is_high(bit, spread) {
                let high = with(alloc, high, bit.saturating_sub(1), spread, file)?;
                Ok(Trie::Fork(low.copy(alloc)?, Shared::new(alloc, high)?))
            } else {
                let low = with(alloc, low, bit.saturating_sub(1), spread, file)?;
                Ok(Trie::Fork(Shared::new(alloc, low)?, high.copy(alloc)?))
            }
        }
    }
}

/// The trie without a key's file.
pub(crate) fn without(
    alloc: Global,
    trie: &Trie,
    bit: u32,
    spread: u32,
    key: &FileKey,
) -> Result<Trie, Memory>
    requires bit { bit < 32 }
    requires spread { spread ≡ spread_of key.now }
    ensures { IfOk result (λ new. Tells bit new (told_but key.now None (found trie.now bit))) }
{
    match trie {
        Trie::Leaf(files) => Ok(Trie::Leaf(others(alloc, files.as_slice(), key)?)),
        Trie::Fork(low, high) => {
            if is_high(bit, spread) {
                let high = without(alloc, high, bit.saturating_sub(1), spread, key)?;
                Ok(Trie::Fork(low.copy(alloc)?, Shared::new(alloc, high)?))
            } else {
                let low = without(alloc, low, bit.saturating_sub(1), spread, key)?;
                Ok(Trie::Fork(Shared::new(alloc, low)?, high.copy(alloc)?))
            }
        }
    }
}

impl ExactCopy for Trie {
    fn copy(&self, alloc: Global) -> Result<Trie, Memory> {
        match self {
            Trie::Leaf(files) => Ok(Trie::Leaf(files.copy(alloc)?)),
            Trie::Fork(low, high) => Ok(Trie::Fork(low.copy(alloc)?, high.copy(alloc)?)),
        }
    }
}
