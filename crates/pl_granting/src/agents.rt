//! What an agent is and what it holds, as rules.

ghost use Rattle.std.specs.Prelude.{◌≡◌, IfOk};
ghost use Rattle.pl_granting.specs.Asked.{of, seen};
ghost use Rattle.pl_granting.specs.Rules as spec;

use crate::job_at::{JobAt, job_at};
use pl_base::{ExactCopy, Memory, Text};
use pl_facts::{AgentSetting, Event, Rule};
use pl_journal::Journal;
use pl_plan::label_of;
use pl_uses::Demand;
use std::alloc::Global;

/// The job that a taking tells, if its run is there.
fn job_taken<'j>(journal: &'j Journal, event: &Event) -> Option<JobAt<'j>>
    ensures { seen result ≡ spec.job_taken journal.now.facts event.now }
{
    match event {
        Event::JobTaken {
            run,
            stage,
            job,
            ..
        } => job_at(journal, *run, *stage, *job),
        _ => None,
    }
}

/// The job that an agent holds: one that it took and that hasn't ended.
pub(crate) fn held_job<'j>(journal: &'j Journal, agent: &Text) -> Option<JobAt<'j>>
    ensures { seen result ≡ spec.held_job journal.now.facts agent.now }
{
    match journal.held_by(agent) {
        Some(fact) => job_taken(journal, &fact.event),
        None => None,
    }
}

/// Whether an agent holds a job: it took it, and the job hasn't ended. It takes no memory.
pub fn is_held_by(journal: &Journal, agent: &Text, at: &JobAt<'_>) -> bool
    ensures { result ≡ spec.is_held_by journal.now.facts agent.now (of at.now) }
{
    match held_job(journal, agent) {
        Some(held) => at.run == held.run && at.stage == held.stage && at.job == held.job,
        None => false,
    }
}

/// `agent.busy`: the job that an agent holds.
pub(crate) fn busy(alloc: Global, journal: &Journal, agent: &Text) -> Result<Option<Rule>, Memory>
    ensures { IfOk result (λ rule. rule ≡ spec.busy journal.now.facts agent.now) }
{
    match held_job(journal, agent) {
        Some(held) => Ok(Some(busy_with(alloc, &held)?)),
        None => Ok(None),
    }
}

/// The rule that an agent holds a job.
fn busy_with(alloc: Global, held: &JobAt<'_>) -> Result<Rule, Memory>
    ensures { IfOk result (λ rule. rule ≡ spec.busy_with (of held.now)) }
{
    let stage = held.staged.name.copy(alloc)?;
    let job = label_of(alloc, held.planned)?;
    Ok(Rule::AgentBusy {
        run: held.run,
        stage,
        job,
    })
}

/// `pool.mismatch`: the agent isn't of the job's pool.
pub(crate) fn other_pool(
    alloc: Global,
    agent: &AgentSetting,
    at: &JobAt<'_>,
) -> Result<Option<Rule>, Memory>
    ensures { IfOk result (λ rule. rule ≡ spec.other_pool agent.now (of at.now)) }
{
    if agent.pool == at.planned.pool {
        return Ok(None);
    }
    let have = agent.pool.copy(alloc)?;
    let need = at.planned.pool.copy(alloc)?;
    Ok(Some(Rule::PoolMismatch { have, need }))
}

/// Whether a capability's value is the one that is asked for, if one is.
fn has_value(wanted: &Option<Text>, value: &Text) -> bool
    ensures { result ≡ spec.has_value wanted.now value.now }
{
    match wanted {
        Some(wanted) => value == wanted,
        None => true,
    }
}

/// Whether an agent meets a demand.
pub(crate) fn meets(agent: &AgentSetting, demand: &Demand) -> bool
    ensures { result ≡ spec.meets agent.now demand.now }
{
    let capabilities = agent.capabilities.as_slice();
    capabilities.iter().any(|one| one.0 == demand.name && has_value(&demand.value, &one.1))
}

/// `capability.missing`: the first demand of a job that an agent doesn't meet.
pub(crate) fn lacks(
    alloc: Global,
    agent: &AgentSetting,
    at: &JobAt<'_>,
) -> Result<Option<Rule>, Memory>
    ensures { IfOk result (λ rule. rule ≡ spec.lacks agent.now (of at.now)) }
{
    let demands = at.planned.demands.as_slice();
    match demands.iter().find(|demand| !meets(agent, demand)) {
        Some(demand) => Ok(Some(Rule::CapabilityMissing {
            name: demand.name.copy(alloc)?,
        })),
        None => Ok(None),
    }
}
