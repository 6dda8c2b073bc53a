//! The rows that one fact touches.

ghost use Rattle.std.specs.Prelude.{◌∷◌, OnOk};
ghost use Rattle.pl_changes.specs.Differing.{Apart, Joins};
ghost use Rattle.pl_touched.specs.Touched.{rows_at, stage_places, touched, FitAt};
ghost use Rattle.pl_spots.specs.Below.pl_kept.specs.Kept.{Run};

use crate::places::add_at;
use crate::plans::add_stages;
use pl_base::{Memory, Row};
use pl_facts::{Event, QueuedRun};
use pl_spots::Spot;
use pl_touched::Journal;
use std::alloc::Global;

/// Adds the rows at the places that a fact touches.
pub(crate) fn add_touched(
    alloc: Global,
    journal: &Journal,
    rows: &mut Vec<Row>,
    event: &Event,
) -> Result<(), Memory>
    ensures apart { Apart rows.old.items → Apart rows.new.items }
    ensures joins { OnOk result (Joins rows.old.items
        (rows_at (touched event.now) journal.now.facts) rows.new.items) }
    ensures fits { OnOk result (FitAt (touched event.now) journal.now.facts) }
{
    match event {
        Event::FilePut(file) => add_at(alloc, journal, rows, Spot::File(&file.key)),
        Event::FileRemoved(key) => add_at(alloc, journal, rows, Spot::File(key)),
        Event::PipelineSet(told) => add_at(alloc, journal, rows, Spot::Pipeline(&told.name)),
        Event::ResourceSet(told) => add_at(alloc, journal, rows, Spot::Resource(&told.key)),
        Event::PrincipalSet(told) => add_at(alloc, journal, rows, Spot::Principal(&told.name)),
        Event::AgentSet(told) => add_at(alloc, journal, rows, Spot::Agent(&told.name)),
        Event::RunQueued(queued) => add_queued(alloc, journal, rows, queued),
        Event::DecisionMade {
            run,
            stage,
            approver,
            ..
        } => add_at(alloc, journal, rows, Spot::Decision(*run, *stage, approver)),
        Event::StageStarted { run, stage } => {
            add_at(alloc, journal, rows, Spot::Stage(*run, *stage))
        }
        Event::StageEnded { run, stage, .. } => {
            add_at(alloc, journal, rows, Spot::Stage(*run, *stage))
        }
        Event::JobTaken {
            run,
            stage,
            job,
            ..
        } => add_at(alloc, journal, rows, Spot::Job(*run, *stage, *job)),
        Event::JobEnded {
            run,
            stage,
            job,
            ..
        } => add_at(alloc, journal, rows, Spot::Job(*run, *stage, *job)),
        Event::RunCanceled { run } => add_at(alloc, journal, rows, Spot::Run(*run)),
    }
}

/// Adds the rows of a run that was queued, and of the stages and jobs of its plan.
fn add_queued(
    alloc: Global,
    journal: &Journal,
    rows: &mut Vec<Row>,
    queued: &QueuedRun,
) -> Result<(), Memory>
    ensures apart { Apart rows.old.items → Apart rows.new.items }
    ensures joins { OnOk result (Joins rows.old.items (rows_at (Run queued.now.run ∷
        stage_places queued.now.run 0 queued.now.compiled.plan.stages) journal.now.facts)
        rows.new.items) }
    ensures fits { OnOk result (FitAt (Run queued.now.run ∷
        stage_places queued.now.run 0 queued.now.compiled.plan.stages) journal.now.facts) }
{
    add_at(alloc, journal, rows, Spot::Run(queued.run))?;
    let stages = queued.compiled.plan.stages.as_slice();
    add_stages(alloc, journal, rows, queued.run, stages)
}
