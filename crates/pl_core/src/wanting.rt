//! What a call wants to be compiled.

ghost use Rattle.std.specs.Prelude.{◌≡◌, IfOk};
ghost use Rattle.pl_history.specs.Made.{WantsFor};
ghost use Rattle.pl_snapshots.specs.Gathering.{IsGathered};

use pl_base::Memory;
use pl_history::may_call;
use pl_journal::Journal;
use pl_requests::Call;
use pl_snapshots::{Gathered, Snapshot, wanted};
use std::alloc::Global;

/// What a call wants to be compiled: nothing, where its caller isn't known or may not make it.
pub(crate) fn wanted_for(
    alloc: Global,
    journal: &Journal,
    files: &Gathered,
    call: &Call,
) -> Result<Option<Snapshot>, Memory>
    requires { IsGathered journal.now.facts files.now }
    ensures { IfOk result (WantsFor journal.now call.now) }
{
    match journal.principal_with(&call.caller) {
        Some(who) if may_call(who, &call.request) => wanted(alloc, journal, files, &call.request),
        _ => Ok(None),
    }
}
