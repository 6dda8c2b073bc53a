//! How a job stands, as rules.

ghost use Rattle.std.specs.Prelude.{◌≡◌, ◌<◌, ◌^◌, IfOk, length};
ghost use Rattle.std.specs.Option.{option_copied};
ghost use Rattle.pl_granting.specs.Asked.{of};
ghost use Rattle.pl_granting.specs.Rules as spec;

use crate::job_at::JobAt;
use pl_base::{ExactCopy, Memory, Text};
use pl_facts::{Fact, Rule};
use pl_journal::{Journal, outcome_told, rule_told, taker_told};
use pl_plan::{PlanJob, label_of};
use pl_refusals::name_of;
use pl_views::awaited_job;
use std::alloc::Global;

/// The name of the rule that ended something, or `report` where none did.
fn ended_by(alloc: Global, rule: Option<&Rule>) -> Result<Text, Memory>
    ensures { IfOk result (λ by. by ≡ spec.ended_by (option_copied rule.entry)) }
{
    match rule {
        Some(rule) => Text::from_str(alloc, name_of(rule)),
        None => Text::from_str(alloc, "report"),
    }
}

/// The rule that something has ended by this fact.
fn ended_as(alloc: Global, fact: &Fact) -> Result<Option<Rule>, Memory>
    ensures { IfOk result (λ rule. rule ≡ spec.ended_as (Some fact.now)) }
{
    match outcome_told(&fact.event) {
        Some(result) => Ok(Some(Rule::JobEnded {
            result,
            by: ended_by(alloc, rule_told(&fact.event))?,
        })),
        None => Ok(None),
    }
}

/// `job.ended`, where a job has ended: its result, and the name of the rule that ended it, or
/// `report`. A job of a stage that ended without a start has ended with it, by the stage's result
/// and rule. None where the job hasn't ended. Memory comes where there is none, and nothing else.
pub fn ended(alloc: Global, journal: &Journal, at: &JobAt<'_>) -> Result<Option<Rule>, Memory>
    ensures { IfOk result (λ rule. rule ≡ spec.ended journal.now.facts (of at.now)) }
{
    match journal.job_ending(at.run, at.stage, at.job) {
        Some(fact) => ended_as(alloc, fact),
        None => Ok(None),
    }
}

/// The agent that holds a job: the one that took it, until it ends.
pub(crate) fn holder<'j>(journal: &'j Journal, at: &JobAt<'_>) -> Option<&'j Text>
    ensures { option_copied result ≡ spec.holder journal.now.facts (of at.now) }
{
    match journal.holding(at.run, at.stage, at.job) {
        Some(fact) => taker_told(&fact.event),
        None => None,
    }
}

/// `job.taken`: another agent holds it.
pub(crate) fn taken(
    alloc: Global,
    journal: &Journal,
    agent: &Text,
    at: &JobAt<'_>,
) -> Result<Option<Rule>, Memory>
    ensures { IfOk result (λ rule. rule ≡ spec.taken journal.now.facts agent.now (of at.now)) }
{
    let Some(other) = holder(journal, at) else {
        return Ok(None);
    };
    if other == agent {
        return Ok(None);
    }
    Ok(Some(Rule::JobTaken {
        agent: other.copy(alloc)?,
    }))
}

/// The label of the job at a place.
fn job_label(alloc: Global, jobs: &[PlanJob], place: u32) -> Result<Text, Memory>
    ensures { IfOk result (λ label. label ≡ spec.job_label jobs.now place) }
{
    match jobs.get(place as usize) {
        Some(one) => label_of(alloc, one),
        None => Ok(Text::new(alloc)),
    }
}

/// `job.depends`: the first job that it waits for.
pub(crate) fn job_waits(
    alloc: Global,
    journal: &Journal,
    at: &JobAt<'_>,
) -> Result<Option<Rule>, Memory>
    ensures { IfOk result (λ rule. rule ≡ spec.job_waits journal.now.facts (of at.now)) }
{
    match awaited_job(journal, at.run, at.stage, at.planned) {
        Some(place) => Ok(Some(Rule::JobDepends {
            job: job_label(alloc, at.staged.jobs.as_slice(), place)?,
        })),
        None => Ok(None),
    }
}

/// Whether the job at a place of the same stage is a leg of the same job, and some agent holds it.
fn is_leg_taken(journal: &Journal, at: &JobAt<'_>, place: u32) -> bool
    ensures { result ≡ spec.is_leg_taken journal.now.facts (of at.now) place }
{
    match at.staged.jobs.get(place as usize) {
        Some(one) => {
            one.name == at.planned.name && journal.holding(at.run, at.stage, place).is_some()
        }
        None => false,
    }
}

/// How many legs of the job agents hold.
pub(crate) fn legs_taken(journal: &Journal, at: &JobAt<'_>) -> u64
    requires { length at.now.staged.now.jobs < 2 ^ 32 }
    ensures { result ≡ spec.legs_taken journal.now.facts (of at.now) }
{
    let mut count: u64 = 0;
    for place in 0..at.staged.jobs.len() as u32 {
        if is_leg_taken(journal, at, place) {
            count += 1;
        }
    }
    count
}

/// `parallel.full`: as many legs run as may at once.
pub(crate) fn full(journal: &Journal, at: &JobAt<'_>) -> Option<Rule>
    requires { length at.now.staged.now.jobs < 2 ^ 32 }
    ensures { result ≡ spec.full journal.now.facts (of at.now) }
{
    let limit = at.planned.max_parallel;
    if limit as u64 <= legs_taken(journal, at) {
        Some(Rule::ParallelFull { limit })
    } else {
        None
    }
}
