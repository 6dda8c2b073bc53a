//! Rows of runs.

ghost use Rattle.std.specs.Prelude.{◌≡◌, Some, IfOk, IfSome};
ghost use Rattle.std.specs.Option.{option_copied, option_map};
ghost use Rattle.pl_keeper.specs.Rows.{row_of, IsKept};
ghost use Rattle.pl_kept.specs.Kept.{queued_kept, run_kept, run_record};
ghost use Rattle.pl_kept.specs.Told.{moment_of};

use crate::used_files::UsedFiles;
use crate::written::written;
use pl_base::{Memory, Moment, Row};
use pl_facts::{Event, Fact, QueuedRun};
use pl_kept::Journal;
use std::alloc::Global;

/// The row of a run, or None where it wasn't queued.
pub fn run_row(alloc: Global, journal: &Journal, run: u64) -> Result<Option<Row>, Memory>
    ensures row { IfOk result
        (λ row. row ≡ option_map row_of (run_kept run journal.now.facts)) }
    ensures fits { IfOk result (λ _. IfSome (run_kept run journal.now.facts) IsKept) }
{
    let canceled = moment_of(journal.canceling(run));
    match journal.queueing(run) {
        Some(fact) => queued_row(alloc, run, canceled, fact),
        None => Ok(None),
    }
}

/// The row of the run that a fact tells was queued.
fn queued_row(
    alloc: Global,
    run: u64,
    canceled: Option<Moment>,
    fact: &Fact,
) -> Result<Option<Row>, Memory>
    ensures row { IfOk result
        (λ row. row ≡ option_map row_of (queued_kept run canceled fact.now)) }
    ensures fits { IfOk result (λ _. IfSome (queued_kept run canceled fact.now) IsKept) }
{
    match &fact.event {
        Event::RunQueued(queued) => told_row(alloc, run, canceled, fact.moment, queued),
        _ => Ok(None),
    }
}

/// The row of a run, from what is told of it.
fn told_row(
    alloc: Global,
    run: u64,
    canceled: Option<Moment>,
    moment: Moment,
    queued: &QueuedRun,
) -> Result<Option<Row>, Memory>
    ensures row { IfOk result
        (λ row. row ≡ option_map row_of (Some (run_record run canceled moment queued.now))) }
    ensures fits { IfOk result (λ _. IsKept (run_record run canceled moment queued.now)) }
{
    let sources = &queued.compiled.sources;
    let files = UsedFiles {
        files: &sources.files,
    };
    let used = (&sources.root, (&sources.arguments, (files, canceled)));
    let body = (&queued.pipeline, (&queued.requester, (moment, used)));
    written(alloc, 6, &run, &body)
}

/// When a fact was, if there is one.
fn moment_of(fact: Option<&Fact>) -> Option<Moment>
    ensures { result ≡ option_map moment_of (option_copied fact.entry) }
{
    match fact {
        Some(fact) => Some(fact.moment),
        None => None,
    }
}
