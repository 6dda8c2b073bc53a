//! The stages that are running on a resource.

ghost use Rattle.std.specs.Prelude.{◌≡◌, ◌++◌, IfOk, OnOk, flat_map};
ghost use Rattle.pl_settings.specs.Running as spec;

use pl_base::{ExactCopy, List, Memory, ResourceKey, Text};
use pl_journal::Journal;
use pl_open_runs::IndexedJournal;
use pl_plan::PlanStage;
use std::alloc::Global;

/// Whether a stage uses a resource.
fn uses(planned: &PlanStage, key: &ResourceKey) -> bool
    ensures { result ≡ spec.uses key.now planned.now }
{
    planned
        .uses
        .as_slice()
        .iter()
        .any(|one| one.cmp(key).is_eq())
}

/// Whether a stage was started and hasn't ended.
fn is_running(journal: &Journal, run: u64, stage: u32) -> bool
    ensures { result ≡ spec.is_running run stage journal.now.facts }
{
    journal.stage_start(run, stage).is_some() && journal.stage_end(run, stage).is_none()
}

/// The run's number and the name of the stage at a place, where it is running on a resource.
fn running_at(
    alloc: Global,
    journal: &Journal,
    key: &ResourceKey,
    run: u64,
    stages: &[PlanStage],
    stage: u32,
) -> Result<Option<(u64, Text)>, Memory>
    ensures { IfOk result (λ found. found ≡
        spec.running_at journal.now.facts key.now run stages.now stage) }
{
    match stages.get(stage as usize) {
        Some(planned) if uses(planned, key) && is_running(journal, run, stage) => {
            let name = planned.name.copy(alloc)?;
            Ok(Some((run, name)))
        }
        _ => Ok(None),
    }
}

/// Puts those of the stages of a run behind the others that are running on a resource. What is left
/// after Memory isn't told. A run has fewer than 2^32 stages: more are want of memory.
fn push_stages(
    alloc: Global,
    found: &mut List<(u64, Text)>,
    journal: &Journal,
    key: &ResourceKey,
    run: u64,
    stages: &[PlanStage],
) -> Result<(), Memory>
    ensures { OnOk result (found.new ≡ found.old
        ++ spec.running_among journal.now.facts key.now run stages.now) }
{
    if stages.len() > u32::MAX as usize {
        return Err(Memory);
    }
    for stage in 0..stages.len() as u32 {
        match running_at(alloc, journal, key, run, stages, stage)? {
            Some(one) => found.push(one)?,
            None => {}
        }
    }
    Ok(())
}

/// Puts those of one run behind the others.
fn push_run(
    alloc: Global,
    found: &mut List<(u64, Text)>,
    journal: &Journal,
    key: &ResourceKey,
    run: u64,
) -> Result<(), Memory>
    ensures { OnOk result (found.new ≡ found.old
        ++ spec.running_of journal.now.facts key.now run) }
{
    match journal.run(run) {
        Some(queued) => {
            let stages = queued.compiled.plan.stages.as_slice();
            push_stages(alloc, found, journal, key, run, stages)
        }
        None => Ok(()),
    }
}

/// Those of some runs.
fn running_in(
    alloc: Global,
    journal: &Journal,
    key: &ResourceKey,
    runs: &[u64],
) -> Result<List<(u64, Text)>, Memory>
    ensures { IfOk result (λ found. found ≡
        flat_map (spec.running_of journal.now.facts key.now) runs.now) }
{
    let mut found = List::new(alloc);
    for run in runs {
        push_run(alloc, &mut found, journal, key, *run)?;
    }
    Ok(found)
}

/// The stages that are running on a resource, by run, then by place: each by its run's number and
/// its name. Only open runs are looked at: no other has a stage that is running.
pub(crate) fn running_on(
    alloc: Global,
    journal: &IndexedJournal,
    key: &ResourceKey,
) -> Result<List<(u64, Text)>, Memory>
    ensures { IfOk result (λ found. found ≡ spec.running_on journal.now.facts key.now) }
{
    running_in(alloc, journal.journal(), key, journal.open_runs())
}
