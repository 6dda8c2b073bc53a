//! Who holds jobs, and whether he may.

ghost use Rattle.std.specs.Prelude.{◌≡◌, ◌+◌, count_by};
ghost use Rattle.std.specs.List.{list_any};
ghost use Rattle.std.specs.Option.{option_copied};
ghost use Rattle.pl_torn.specs.Holding as spec;

use crate::seen::{Seen, job_of};
use pl_base::Text;
use pl_keeper::{KeptJob, KeptStage};
use pl_plan::{PlanJob, PlanStage};

/// Whether a job is taken or has ended in a stage that wasn't started, or goes on in one that was
/// and has ended.
pub(crate) fn is_out_of_stage(stage: Option<&KeptStage>, told: &KeptJob) -> bool
    ensures { result ≡ spec.is_out_of_stage (option_copied stage.entry) told.now }
{
    let (started, run_out) = match stage {
        Some(stage) => (
            stage.started.is_some(),
            stage.started.is_some() && stage.ended.is_some(),
        ),
        None => (false, false),
    };
    ((told.taken.is_some() || told.ended.is_some()) && !started)
        || (told.ended.is_none() && run_out)
}

/// The agent that took a job and holds it, until it ends.
fn holder(told: &KeptJob) -> Option<&Text>
    ensures { option_copied result ≡ spec.holder told.now }
{
    if told.ended.is_some() {
        return None;
    }
    match &told.taken {
        Some(taking) => Some(&taking.agent),
        None => None,
    }
}

/// Whether it is the row of a job that an agent holds.
fn holds(agent: &Text, one: &Seen<'_>) -> bool
    ensures { result ≡ spec.holds agent.now one.now }
{
    match job_of(one) {
        Some(told) => is_holder(agent, told),
        None => false,
    }
}

/// Whether an agent holds a job.
fn is_holder(agent: &Text, told: &KeptJob) -> bool
    ensures { result ≡ spec.is_holder agent.now told.now }
{
    match holder(told) {
        Some(other) => other.cmp(agent).is_eq(),
        None => false,
    }
}

/// Whether an agent holds a job of a row in front.
fn any_holds(agent: &Text, before: &[Seen<'_>]) -> bool
    ensures { result ≡ list_any (spec.holds agent.now) before.now }
{
    before.iter().any(|one| holds(agent, one))
}

/// Whether the agent that holds a job holds another one, of a row in front.
pub(crate) fn has_other(before: &[Seen<'_>], told: &KeptJob) -> bool
    ensures { result ≡ spec.has_other before.now told.now }
{
    match holder(told) {
        Some(agent) => any_holds(agent, before),
        None => false,
    }
}

/// Whether the job at a place of a stage is a leg of this one: it has its name.
fn is_leg_of(planned: &PlanStage, job: &PlanJob, at: u32) -> bool
    ensures { result ≡ spec.is_leg_of planned.now job.now at }
{
    match planned.jobs.get(at as usize) {
        Some(other) => other.name.cmp(&job.name).is_eq(),
        None => false,
    }
}

/// Whether it is the row of a leg of a job, in the stage of that job's row, that is held.
fn is_held_leg(planned: &PlanStage, job: &PlanJob, told: &KeptJob, one: &Seen<'_>) -> bool
    ensures { result ≡ spec.is_held_leg planned.now job.now told.now one.now }
{
    match job_of(one) {
        Some(other) => {
            holder(other).is_some()
                && (other.run == told.run && other.stage == told.stage)
                && is_leg_of(planned, job, other.position)
        }
        None => false,
    }
}

/// How many rows are such.
fn held_legs(planned: &PlanStage, job: &PlanJob, before: &[Seen<'_>], told: &KeptJob) -> usize
    ensures { result ≡ count_by (spec.is_held_leg planned.now job.now told.now) before.now }
{
    let legs = before.iter();
    legs.filter(|one| is_held_leg(planned, job, told, one))
        .count()
}

/// Whether a leg is held, and with those in front more are than may be at once.
pub(crate) fn is_leg_too_many(
    planned: &PlanStage,
    job: &PlanJob,
    before: &[Seen<'_>],
    told: &KeptJob,
) -> bool
    ensures { result ≡ spec.is_leg_too_many planned.now job.now before.now told.now }
{
    holder(told).is_some()
        && u64::from(job.max_parallel) <= held_legs(planned, job, before, told) as u64
}
