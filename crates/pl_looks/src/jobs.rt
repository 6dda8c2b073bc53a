//! The jobs of a run's stages that run: which wait for an agent, and which an agent holds.

ghost use Rattle.std.specs.Prelude.{◌≡◌, ◌≤◌, ◌++◌, IfOk, None, OnOk, Some, flat_map};
ghost use Rattle.std.specs.Prelude.{if◌then◌else◌};
ghost use Rattle.std.specs.Option.{option_map, option_to_list};
ghost use Rattle.pl_due.specs.Asked.{IsAsked, facts_of};
ghost use Rattle.pl_due.specs.Below.pl_journal.specs.Runs as runs;
ghost use Rattle.pl_due.specs.Fit.{AreFit, last_moment};
ghost use Rattle.pl_due.specs.Nodes as nodes;
ghost use Rattle.pl_looks.specs.Jobs as spec;

use crate::types::{ReadyJob, TakenJob};
use pl_base::{ExactCopy, List, Memory, Moment, Text};
use pl_due::{Journal, Place, StageAt, awaits_agent, taker_told};
use pl_facts::Fact;
use std::alloc::Global;

/// The jobs that wait for an agent, and those that an agent holds.
#[derive(Drop)]
pub(crate) struct Jobs {
    pub(crate) ready: List<ReadyJob>,
    pub(crate) taken: List<TakenJob>,
}

/// A job of a stage, where it waits for an agent alone.
fn ready_job(alloc: Global, at: &StageAt<'_>, job: u32) -> Result<Option<ReadyJob>, Memory>
    ensures { IfOk result (λ told. told ≡ spec.ready_job (facts_of at.now) at.now.planned.now
        at.now.run at.now.stage job) }
{
    match at.planned.jobs.get(job as usize) {
        Some(planned) => ready_if(alloc, at, job, &planned.pool),
        None => Ok(None),
    }
}

/// A job of this pool, where it waits for an agent alone.
fn ready_if(
    alloc: Global,
    at: &StageAt<'_>,
    job: u32,
    pool: &Text,
) -> Result<Option<ReadyJob>, Memory>
    ensures { IfOk result (λ told. told ≡ (if nodes.awaits_agent at.now.planned.now at.now.run
        at.now.stage job (facts_of at.now) then Some (record { pool = pool.now; stage = at.now.stage; job = job })
        else None)) }
{
    if !awaits_agent(at, job) {
        return Ok(None);
    }
    let pool = pool.copy(alloc)?;
    Ok(Some(ReadyJob {
        pool,
        stage: at.stage,
        job,
    }))
}

/// A job of a stage, where an agent holds it.
fn taken_job(alloc: Global, at: &StageAt<'_>, job: u32) -> Result<Option<TakenJob>, Memory>
    ensures { IfOk result (λ told. told ≡ spec.taken_job (facts_of at.now) at.now.planned.now
        at.now.run at.now.stage job) }
{
    match at.journal.holding(at.run, at.stage, job) {
        Some(fact) => taken_by(alloc, fact, at.stage, job),
        None => Ok(None),
    }
}

/// A job that was taken by this fact.
fn taken_by(alloc: Global, fact: &Fact, stage: u32, job: u32) -> Result<Option<TakenJob>, Memory>
    ensures { IfOk result (λ told. told ≡ option_map
        (λ agent. record { agent = agent; stage = stage; job = job }) (runs.taker_told fact.now.event)) }
{
    match taker_told(&fact.event) {
        Some(agent) => {
            let agent = agent.copy(alloc)?;
            Ok(Some(TakenJob { agent, stage, job }))
        }
        None => Ok(None),
    }
}

/// Puts what is told of a job behind the others. What is left after Memory isn't told.
fn push_job(
    alloc: Global,
    ready: &mut List<ReadyJob>,
    taken: &mut List<TakenJob>,
    at: &StageAt<'_>,
    job: u32,
) -> Result<(), Memory>
    ensures ready { OnOk result (ready.new ≡ ready.old ++ option_to_list
        (spec.ready_job (facts_of at.now) at.now.planned.now at.now.run at.now.stage job)) }
    ensures taken { OnOk result (taken.new ≡ taken.old ++ option_to_list
        (spec.taken_job (facts_of at.now) at.now.planned.now at.now.run at.now.stage job)) }
{
    push_some(ready, ready_job(alloc, at, job)?)?;
    push_some(taken, taken_job(alloc, at, job)?)?;
    Ok(())
}

/// Puts something behind others, where there is something.
fn push_some<T: Drop>(items: &mut List<T>, item: Option<T>) -> Result<(), Memory>
    ensures { OnOk result (items.new ≡ items.old ++ option_to_list item) }
{
    if let Some(item) = item {
        items.push(item)?;
    }
    Ok(())
}

/// Puts what is told of the jobs of a stage behind the others.
fn push_stage(
    alloc: Global,
    ready: &mut List<ReadyJob>,
    taken: &mut List<TakenJob>,
    at: &StageAt<'_>,
) -> Result<(), Memory>
    requires { IsAsked at.now }
    ensures ready { OnOk result (ready.new ≡ ready.old ++ spec.of_stage spec.ready_job
        (facts_of at.now) at.now.planned.now at.now.run at.now.stage) }
    ensures taken { OnOk result (taken.new ≡ taken.old ++ spec.of_stage spec.taken_job
        (facts_of at.now) at.now.planned.now at.now.run at.now.stage) }
{
    for job in 0..at.planned.jobs.len() as u32 {
        push_job(alloc, ready, taken, at, job)?;
    }
    Ok(())
}

/// Puts what is told of the jobs of the stage at a place, if it is there, behind the others.
fn push_place(
    alloc: Global,
    ready: &mut List<ReadyJob>,
    taken: &mut List<TakenJob>,
    journal: &Journal,
    run: u64,
    moment: Moment,
    stage: u32,
) -> Result<(), Memory>
    requires moment { moment ≤ last_moment }
    requires fit { AreFit journal.now.facts }
    ensures ready { OnOk result (ready.new ≡ ready.old
        ++ spec.of_place spec.ready_job journal.now.facts run stage) }
    ensures taken { OnOk result (taken.new ≡ taken.old
        ++ spec.of_place spec.taken_job journal.now.facts run stage) }
{
    match journal.run(run) {
        Some(queued) => match queued.compiled.plan.stages.get(stage as usize) {
            Some(planned) => {
                let at = StageAt {
                    journal,
                    moment,
                    run,
                    stage,
                    queued,
                    planned,
                };
                push_stage(alloc, ready, taken, &at)?;
                Ok(())
            }
            None => Ok(()),
        },
        None => Ok(()),
    }
}

/// What is told of the jobs of these stages of a run.
pub(crate) fn jobs_of(
    alloc: Global,
    journal: &Journal,
    run: u64,
    moment: Moment,
    places: &[Place],
) -> Result<Jobs, Memory>
    requires moment { moment ≤ last_moment }
    requires fit { AreFit journal.now.facts }
    ensures ready { IfOk result (λ told. told.ready ≡ flat_map
        (λ at. spec.of_place spec.ready_job journal.now.facts run at.stage) places.now) }
    ensures taken { IfOk result (λ told. told.taken ≡ flat_map
        (λ at. spec.of_place spec.taken_job journal.now.facts run at.stage) places.now) }
{
    let mut ready = List::new(alloc);
    let mut taken = List::new(alloc);
    for place in places {
        push_place(
            alloc,
            &mut ready,
            &mut taken,
            journal,
            run,
            moment,
            place.stage,
        )?;
    }
    Ok(Jobs { ready, taken })
}
