//! What stages and jobs wait for.

ghost use Rattle.std.specs.Prelude.{◌≡◌};
ghost use Rattle.std.specs.Option.{option_copied};
ghost use Rattle.pl_views.specs.Ready as spec;

use pl_base::Moment;
use pl_journal::{Fact, Journal};
use pl_plan::{PlanJob, PlanStage};

/// Whether the stage at a place has ended.
fn has_ended(journal: &Journal, run: u64, stage: u32) -> bool
    ensures { result ≡ spec.has_ended run journal.now.facts stage }
{
    journal.stage_end(run, stage).is_some()
}

/// Whether the job at a place of a stage has ended.
fn job_has_ended(journal: &Journal, run: u64, stage: u32, job: u32) -> bool
    ensures { result ≡ spec.job_has_ended run stage journal.now.facts job }
{
    journal.job_ending(run, stage, job).is_some()
}

/// Whether a stage of a run is ready: all stages for which it waits have ended. It takes no memory,
/// as none of these look-ups does.
pub fn is_ready(journal: &Journal, run: u64, planned: &PlanStage) -> bool
    ensures { result ≡ spec.is_ready planned.now run journal.now.facts }
{
    planned
        .depends
        .as_slice()
        .iter()
        .all(|stage| has_ended(journal, run, *stage))
}

/// The place of the first stage for which a stage of a run waits and that hasn't ended, or None
/// where all have.
pub fn awaited_stage(journal: &Journal, run: u64, planned: &PlanStage) -> Option<u32>
    ensures { result ≡ spec.awaited_stage planned.now run journal.now.facts }
{
    for stage in planned.depends.as_slice() {
        if !has_ended(journal, run, *stage) {
            return Some(*stage);
        }
    }
    None
}

/// Whether all jobs have ended for which a job waits, in the stage at a place. A job of a stage
/// that ended without a start has ended with it.
pub fn job_is_ready(journal: &Journal, run: u64, stage: u32, planned: &PlanJob) -> bool
    ensures { result ≡ spec.job_is_ready planned.now run stage journal.now.facts }
{
    planned
        .depends
        .as_slice()
        .iter()
        .all(|job| job_has_ended(journal, run, stage, *job))
}

/// The place of the first job for which a job waits, in the stage at a place, and that hasn't
/// ended, or None where all have.
pub fn awaited_job(journal: &Journal, run: u64, stage: u32, planned: &PlanJob) -> Option<u32>
    ensures { result ≡ spec.awaited_job planned.now run stage journal.now.facts }
{
    for job in planned.depends.as_slice() {
        if !job_has_ended(journal, run, stage, *job) {
            return Some(*job);
        }
    }
    None
}

/// The later of a moment and that of a fact, if there is one.
fn later(moment: Moment, fact: Option<&Fact>) -> Moment
    ensures { result ≡ spec.later moment (option_copied fact.entry) }
{
    match fact {
        Some(fact) => moment.max(fact.moment),
        None => moment,
    }
}

/// Since when a stage of a run that is ready is so: the latest moment of the run's queueing and of
/// the ends of the stages for which it waits. Moments never fall from fact to fact, so it is that
/// of the latest of these facts.
pub fn ready_moment(journal: &Journal, run: u64, planned: &PlanStage) -> Moment
    ensures { result ≡ spec.ready_moment planned.now run journal.now.facts }
{
    let mut latest = later(0, journal.queueing(run));
    for stage in planned.depends.as_slice() {
        latest = later(latest, journal.stage_end(run, *stage));
    }
    latest
}
