//! The compile of a run's sources.

ghost use Rattle.std.specs.Prelude.{◌≡◌, map, Some, IfOk};
ghost use Rattle.std.specs.FinMap as finite;
ghost use Rattle.pl_seeing.specs.Seeing.{pair_of, sources_of, IsMadeOf};
ghost use Rattle.pl_seeing.specs.Sharing.{Comes};
ghost use Rattle.pl_sources.specs.Again.{files_of};

use crate::same::are_same;
use pl_base::{Bytes, ExactCopy, Memory, Shared};
use pl_keeper::{KeptFile, KeptRun};
use pl_plan::Compiled;
use pl_sources::{CompileFault, SharedFiles, compile, sources_compile_again};
use std::alloc::Global;

/// The files of a run by their keys; of two with one key the first counts.
fn file_set(alloc: Global, told: &[KeptFile]) -> Result<SharedFiles, Memory>
    ensures { IfOk result (λ files. files ≡ finite.from_entries (map pair_of told.now)) }
{
    let mut files = SharedFiles::new(alloc);
    let mut left = told.len();
    while left > 0 {
        left -= 1;
        let file = &told[left];
        let text = Bytes::from_slice(alloc, file.text.as_slice())?;
        files.put_text(alloc, file.key.copy(alloc)?, text)?;
    }
    Ok(files)
}

/// What files compile to with a run's root and arguments, or None where they are refused.
fn compiled_from(
    alloc: Global,
    files: &SharedFiles,
    told: &KeptRun,
) -> Result<Option<Compiled>, Memory>
    ensures { IfOk result (Comes files.now told.now.root told.now.arguments) }
{
    sources_compile_again();
    match compile(alloc, files, &told.root, &told.arguments) {
        Ok(compiled) => Ok(Some(compiled)),
        Err(fault) => match fault {
            CompileFault::Refused(_refusal) => Ok(None),
            CompileFault::Memory => Err(Memory),
        },
    }
}

/// What a run's files alone compile to, or None where they are refused.
fn made_from(alloc: Global, told: &KeptRun) -> Result<Option<Compiled>, Memory>
    ensures { IfOk result
        (Comes (files_of (sources_of told.now)) told.now.root told.now.arguments) }
{
    let files = file_set(alloc, told.files.as_slice())?;
    compiled_from(alloc, &files, told)
}

/// What a run's files compile to, or None where that has other sources.
fn if_same(
    alloc: Global,
    told: &KeptRun,
    compiled: Compiled,
) -> Result<Option<Shared<Compiled>>, Memory>
    requires comes { Comes (files_of (sources_of told.now)) told.now.root told.now.arguments (Some compiled) }
    ensures { IfOk result (IsMadeOf (sources_of told.now)) }
{
    if are_same(told, &compiled.sources) {
        Ok(Some(Shared::new(alloc, compiled)?))
    } else {
        Ok(None)
    }
}

/// The compile of a run's sources, or None where they don't compile, or where that has other
/// sources. Memory where memory is wanting.
pub(crate) fn compiled_of(alloc: Global, told: &KeptRun) -> Result<Option<Shared<Compiled>>, Memory>
    ensures { IfOk result (IsMadeOf (sources_of told.now)) }
{
    match made_from(alloc, told)? {
        Some(compiled) => if_same(alloc, told, compiled),
        None => Ok(None),
    }
}
