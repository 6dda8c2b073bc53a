ghost use Rattle.std.specs.Prelude.{IfOk};
ghost use Rattle.pl_compilation.specs.Made.{IsMadeOf};

use pl_base::{Memory, Refusal, Shared};
use pl_compile::{CompileFault, compile};
use pl_plan::Compiled;
use pl_snapshots::Snapshot;
use std::alloc::Global;

/// A snapshot's root file with its arguments, compiled, or the first refusal of that. Memory where
/// memory is wanting.
pub fn compiled(
    alloc: Global,
    snapshot: &Snapshot,
) -> Result<Result<Shared<Compiled>, Refusal>, Memory>
    ensures { IfOk result (IsMadeOf snapshot.now) }
{
    match compile(alloc, &snapshot.files, &snapshot.root, &snapshot.arguments) {
        Ok(compiled) => Ok(Ok(Shared::new(alloc, compiled)?)),
        Err(CompileFault::Refused(refusal)) => Ok(Err(refusal)),
        Err(CompileFault::Memory) => Err(Memory),
    }
}
