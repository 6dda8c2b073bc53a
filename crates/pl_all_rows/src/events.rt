//! The rows that one fact brings.

ghost use Rattle.std.specs.Prelude.{◌≡◌, ◌++◌, ◌∷◌, OnOk};
ghost use Rattle.pl_all_rows.specs.Brought.{brought, brought_at};
ghost use Rattle.pl_kept.specs.Kept.{Run};
ghost use Rattle.pl_touched.specs.Touched.{rows_at, stage_places, FitAt};

use crate::places::push_at;
use crate::plans::push_stages;
use pl_base::{Memory, Row};
use pl_facts::{Event, QueuedRun};
use pl_journal::Journal;
use pl_row_changes::Spot;
use std::alloc::Global;

/// Puts the rows behind the others that stand at the places at which a fact can bring one.
fn push_brought(
    alloc: Global,
    journal: &Journal,
    rows: &mut Vec<Row>,
    event: &Event,
) -> Result<(), Memory>
    ensures rows { OnOk result (rows.new.items ≡ rows.old.items ++
        rows_at (brought event.now) journal.now.facts) }
    ensures fits { OnOk result (FitAt (brought event.now) journal.now.facts) }
{
    match event {
        Event::FilePut(file) => push_at(alloc, journal, rows, Spot::File(&file.key)),
        Event::PipelineSet(told) => push_at(alloc, journal, rows, Spot::Pipeline(&told.name)),
        Event::ResourceSet(told) => push_at(alloc, journal, rows, Spot::Resource(&told.key)),
        Event::PrincipalSet(told) => push_at(alloc, journal, rows, Spot::Principal(&told.name)),
        Event::AgentSet(told) => push_at(alloc, journal, rows, Spot::Agent(&told.name)),
        Event::RunQueued(queued) => push_queued(alloc, journal, rows, queued),
        Event::DecisionMade {
            run,
            stage,
            approver,
            ..
        } => push_at(alloc, journal, rows, Spot::Decision(*run, *stage, approver)),
        Event::FileRemoved(_)
        | Event::StageStarted { .. }
        | Event::StageEnded { .. }
        | Event::JobTaken { .. }
        | Event::JobEnded { .. }
        | Event::RunCanceled { .. } => Ok(()),
    }
}

/// Puts the rows of a run that was queued, and of the stages and jobs of its plan, behind the others.
fn push_queued(
    alloc: Global,
    journal: &Journal,
    rows: &mut Vec<Row>,
    queued: &QueuedRun,
) -> Result<(), Memory>
    ensures rows { OnOk result (rows.new.items ≡ rows.old.items ++ rows_at (Run queued.now.run ∷
        stage_places queued.now.run 0 queued.now.compiled.plan.stages) journal.now.facts) }
    ensures fits { OnOk result (FitAt (Run queued.now.run ∷
        stage_places queued.now.run 0 queued.now.compiled.plan.stages) journal.now.facts) }
{
    push_at(alloc, journal, rows, Spot::Run(queued.run))?;
    let stages = queued.compiled.plan.stages.as_slice();
    push_stages(alloc, journal, rows, queued.run, stages)
}

/// The same of the fact at a place of the journal, if there is one.
pub(crate) fn push_fact(
    alloc: Global,
    journal: &Journal,
    rows: &mut Vec<Row>,
    at: usize,
) -> Result<(), Memory>
    ensures rows { OnOk result (rows.new.items ≡ rows.old.items ++
        rows_at (brought_at at journal.now.facts) journal.now.facts) }
    ensures fits { OnOk result (FitAt (brought_at at journal.now.facts) journal.now.facts) }
{
    match journal.fact(at) {
        Some(fact) => push_brought(alloc, journal, rows, &fact.event),
        None => Ok(()),
    }
}
