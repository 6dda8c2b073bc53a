//! Files in a list, of which the first with a key counts.

ghost use Rattle.std.specs.Prelude.{◌≡◌, ◌<◌, not, IfOk};
ghost use Rattle.std.specs.List.{filter};
ghost use Rattle.std.specs.Option.{option_copied};
ghost use Rattle.pl_file_sets.specs.Tries.{is_key, is_on_side, text_in};

use crate::spread::{is_high, spread_of};
use pl_base::{Bytes, ExactCopy, FileKey, List, Memory, Shared};
use pl_requests::FileText;
use std::alloc::Global;

/// The text of a key's file, or None where there is none.
pub(crate) fn text_in<'a>(files: &'a [Shared<FileText>], key: &FileKey) -> Option<&'a Bytes>
    ensures { option_copied result ≡ text_in key.now files.now }
{
    for file in files {
        if key.cmp(&file.key).is_eq() {
            return Some(&file.text);
        }
    }
    None
}

/// The files of other keys.
pub(crate) fn others(
    alloc: Global,
    files: &[Shared<FileText>],
    key: &FileKey,
) -> Result<List<Shared<FileText>>, Memory>
    ensures { IfOk result
        (λ others. others ≡ filter (λ file. not (is_key key.now file.key)) files.now) }
{
    let mut others = List::new(alloc);
    for file in files {
        if !key.cmp(&file.key).is_eq() {
            others.push(file.copy(alloc)?)?;
        }
    }
    Ok(others)
}

/// The files on one side of a bit.
pub(crate) fn side(
    alloc: Global,
    files: &[Shared<FileText>],
    bit: u32,
    high: bool,
) -> Result<List<Shared<FileText>>, Memory>
    requires { bit < 32 }
    ensures { IfOk result
        (λ list. list ≡ filter (λ file. is_on_side high bit file.key) files.now) }
{
    let mut list = List::new(alloc);
    for file in files {
        if is_high(bit, spread_of(&file.key)) == high {
            list.push(file.copy(alloc)?)?;
        }
    }
    Ok(list)
}
