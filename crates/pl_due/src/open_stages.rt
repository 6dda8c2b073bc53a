//! The stages in which anything may be due.

ghost use Rattle.std.specs.Prelude.{◌≡◌, ◌++◌, ◌<◌, ◌^◌, ◌∷◌, [], IfOk, OnOk, cond, flat_map};
ghost use Rattle.std.specs.Prelude.{length};
ghost use Rattle.pl_due.specs.Open as spec;
ghost use Rattle.pl_due.specs.Fit.{AreFit};

use crate::nodes::{is_running, waits};
use pl_base::{List, Memory};
use pl_journal::Journal;
use pl_open_runs::IndexedJournal;
use pl_plan::PlanStage;
use std::alloc::Global;

/// A stage by its run's number and its place in the run's plan.
#[derive(Clone, Copy)]
pub struct Place {
    pub run: u64,
    pub stage: u32,
}

/// The stages that run, and those that are neither started nor ended and wait for no other stage,
/// each by run, then by place.
#[derive(Drop)]
pub struct OpenStages {
    pub running: List<Place>,
    pub waiting: List<Place>,
}

/// Those of open runs.
pub(crate) fn open_stages(alloc: Global, journal: &IndexedJournal) -> Result<OpenStages, Memory>
    requires { AreFit journal.now.facts }
    ensures running { IfOk result (λ all. all.running ≡
        spec.of_open journal.now.facts (spec.runs journal.now.facts)) }
    ensures waiting { IfOk result (λ all. all.waiting ≡
        spec.of_open journal.now.facts (spec.waits journal.now.facts)) }
{
    stages_of(alloc, journal.journal(), journal.open_runs())
}

/// Those of some runs.
pub fn stages_of(alloc: Global, journal: &Journal, runs: &[u64]) -> Result<OpenStages, Memory>
    requires { AreFit journal.now.facts }
    ensures running { IfOk result (λ all. all.running ≡
        flat_map (spec.of_run journal.now.facts (spec.runs journal.now.facts)) runs.now) }
    ensures waiting { IfOk result (λ all. all.waiting ≡
        flat_map (spec.of_run journal.now.facts (spec.waits journal.now.facts)) runs.now) }
{
    let mut running = List::new(alloc);
    let mut waiting = List::new(alloc);
    for run in runs {
        push_run(&mut running, &mut waiting, journal, *run)?;
    }
    Ok(OpenStages { running, waiting })
}

/// Puts those of one run behind the others. What is left after Memory isn't told.
fn push_run(
    running: &mut List<Place>,
    waiting: &mut List<Place>,
    journal: &Journal,
    run: u64,
) -> Result<(), Memory>
    requires { AreFit journal.now.facts }
    ensures running { OnOk result (running.new ≡ running.old
        ++ spec.of_run journal.now.facts (spec.runs journal.now.facts) run) }
    ensures waiting { OnOk result (waiting.new ≡ waiting.old
        ++ spec.of_run journal.now.facts (spec.waits journal.now.facts) run) }
{
    match journal.run(run) {
        Some(queued) => {
            let stages = queued.compiled.plan.stages.as_slice();
            push_stages(running, waiting, journal, run, stages)?;
            Ok(())
        }
        None => Ok(()),
    }
}

/// Puts those of the stages of a run behind the others.
fn push_stages(
    running: &mut List<Place>,
    waiting: &mut List<Place>,
    journal: &Journal,
    run: u64,
    stages: &[PlanStage],
) -> Result<(), Memory>
    requires { length stages.now < 2 ^ 32 }
    ensures running { OnOk result (running.new ≡ running.old
        ++ spec.passing (spec.runs journal.now.facts) stages.now run (length stages.now)) }
    ensures waiting { OnOk result (waiting.new ≡ waiting.old
        ++ spec.passing (spec.waits journal.now.facts) stages.now run (length stages.now)) }
{
    for stage in 0..stages.len() as u32 {
        let place = Place { run, stage };
        push_if(running, place, is_running(journal, run, stage))?;
        push_if(waiting, place, waits_at(journal, run, stages, stage))?;
    }
    Ok(())
}

/// Whether the stage at a place of a run is there, and waits as `waits` says.
fn waits_at(journal: &Journal, run: u64, stages: &[PlanStage], stage: u32) -> bool
    ensures { result ≡ spec.waits journal.now.facts stages.now run stage }
{
    match stages.get(stage as usize) {
        Some(planned) => waits(journal, run, stage, planned),
        None => false,
    }
}

/// Puts a stage behind others, where it is one of them.
fn push_if(places: &mut List<Place>, place: Place, is_one: bool) -> Result<(), Memory>
    ensures { OnOk result (places.new ≡ places.old ++ cond is_one (place ∷ []) []) }
{
    if is_one {
        places.push(place)?;
    }
    Ok(())
}
