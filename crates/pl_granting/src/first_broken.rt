//! The first rule that is broken where an agent asks for a job.

ghost use Rattle.std.specs.Prelude.{◌≡◌, ◌≤◌, ◌∷◌, [], IfOk, drop, false};
ghost use Rattle.pl_due.specs.Fit.{AreFit, last_moment};
ghost use Rattle.pl_granting.specs.Asked.{of};
ghost use Rattle.pl_granting.specs.Broken.{Broken, FirstBroken, NameBroken, Tells, asked_rules};
ghost use Rattle.pl_granting.specs.Named.{IsJobOf};
ghost use Rattle.pl_granting.specs.Rules as rules;

use crate::agents::{busy, is_held_by, lacks, other_pool};
use crate::job_at::{JobAt, job_named};
use crate::jobs::{ended, full, job_waits, taken};
use crate::locked::{awaits, by_locks};
use crate::stages::{is_started, stage_waits, unpermitted};
use pl_base::{Memory, Moment};
use pl_due::IndexedJournal;
use pl_facts::{AgentSetting, Rule};
use pl_journal::Journal;
use pl_requests::JobName;
use std::alloc::Global;

/// The first rule that is broken where an agent asks for a job that is there, or None where none
/// is: it holds the job, or may be given it.
///
/// The rules are, in this order: the job has ended (`job.ended`); another agent holds it
/// (`job.taken`); the agent holds another job (`agent.busy`); it isn't of the job's pool
/// (`pool.mismatch`); it doesn't meet a demand (`capability.missing`, the first); the job's stage
/// waits for a stage (`stage.depends`, the first); and where that stage wasn't started: its
/// pipeline may not use what it uses (`permission.missing`, the first), an approval is open
/// (`approval.open`, the first), hours are closed (`hours.closed`, the first), a stage holds what
/// it uses alone (`lock.held`, by the first such use), or one that uses it alone comes first
/// (`lock.behind`, the least); the job waits for a job (`job.depends`, the first); and as many legs
/// of it run as may at once (`parallel.full`). An agent that holds the job breaks none.
///
/// Each fact's moment is one that a clock tells, and each run's plan can run, as `pl_due::due`
/// asks. Memory comes where there is none, and nothing else.
pub fn broken(
    alloc: Global,
    journal: &IndexedJournal,
    moment: Moment,
    agent: &AgentSetting,
    at: &JobAt<'_>,
) -> Result<Option<Rule>, Memory>
    requires moment { moment ≤ last_moment }
    requires fit { AreFit journal.now.facts }
    requires job { IsJobOf journal.now.facts (of at.now) }
    ensures { IfOk result (Broken journal.now.facts moment agent.now (of at.now)) }
{
    if is_held_by(journal.journal(), &agent.name, at) {
        return Ok(None);
    }
    by_job(alloc, journal, moment, agent, at)
}

/// The first of all rules, where the agent doesn't hold the job.
fn by_job(
    alloc: Global,
    journal: &IndexedJournal,
    moment: Moment,
    agent: &AgentSetting,
    at: &JobAt<'_>,
) -> Result<Option<Rule>, Memory>
    requires moment { moment ≤ last_moment }
    requires fit { AreFit journal.now.facts }
    requires job { IsJobOf journal.now.facts (of at.now) }
    ensures { IfOk result
        (FirstBroken (asked_rules journal.now.facts moment agent.now (of at.now))) }
{
    if let Some(rule) = ended(alloc, journal.journal(), at)? {
        return Ok(Some(rule));
    }
    if let Some(rule) = taken(alloc, journal.journal(), &agent.name, at)? {
        return Ok(Some(rule));
    }
    by_agent(alloc, journal, moment, agent, at)
}

/// The first of the rules from `agent.busy` on.
fn by_agent(
    alloc: Global,
    journal: &IndexedJournal,
    moment: Moment,
    agent: &AgentSetting,
    at: &JobAt<'_>,
) -> Result<Option<Rule>, Memory>
    requires moment { moment ≤ last_moment }
    requires fit { AreFit journal.now.facts }
    requires job { IsJobOf journal.now.facts (of at.now) }
    ensures { IfOk result (FirstBroken
        (drop 2 (asked_rules journal.now.facts moment agent.now (of at.now)))) }
{
    if let Some(rule) = busy(alloc, journal.journal(), &agent.name)? {
        return Ok(Some(rule));
    }
    if let Some(rule) = other_pool(alloc, agent, at)? {
        return Ok(Some(rule));
    }
    if let Some(rule) = lacks(alloc, agent, at)? {
        return Ok(Some(rule));
    }
    by_stage(alloc, journal, moment, agent, at)
}

/// The first of the rules from `stage.depends` on.
fn by_stage(
    alloc: Global,
    journal: &IndexedJournal,
    moment: Moment,
    agent: &AgentSetting,
    at: &JobAt<'_>,
) -> Result<Option<Rule>, Memory>
    requires moment { moment ≤ last_moment }
    requires fit { AreFit journal.now.facts }
    requires job { IsJobOf journal.now.facts (of at.now) }
    ensures { IfOk result (FirstBroken
        (drop 5 (asked_rules journal.now.facts moment agent.now (of at.now)))) }
{
    if let Some(rule) = stage_waits(alloc, journal.journal(), at)? {
        return Ok(Some(rule));
    }
    if is_started(journal.journal(), at) {
        return by_turn(alloc, journal.journal(), at);
    }
    by_checks(alloc, journal, moment, agent, at)
}

/// The first of the rules from `permission.missing` on, where the stage wasn't started.
fn by_checks(
    alloc: Global,
    journal: &IndexedJournal,
    moment: Moment,
    agent: &AgentSetting,
    at: &JobAt<'_>,
) -> Result<Option<Rule>, Memory>
    requires moment { moment ≤ last_moment }
    requires fit { AreFit journal.now.facts }
    requires job { IsJobOf journal.now.facts (of at.now) }
    requires waits { rules.is_started journal.now.facts (of at.now) ≡ false }
    ensures { IfOk result (FirstBroken
        (drop 6 (asked_rules journal.now.facts moment agent.now (of at.now)))) }
{
    if let Some(rule) = unpermitted(alloc, journal.journal(), at)? {
        return Ok(Some(rule));
    }
    if let Some(rule) = awaits(alloc, journal.journal(), moment, at)? {
        return Ok(Some(rule));
    }
    match by_locks(alloc, journal, moment, at)? {
        Some(rule) => Ok(Some(rule)),
        None => by_turn(alloc, journal.journal(), at),
    }
}

/// The first of the rules from `job.depends` on.
fn by_turn(alloc: Global, journal: &Journal, at: &JobAt<'_>) -> Result<Option<Rule>, Memory>
    requires fit { AreFit journal.now.facts }
    requires job { IsJobOf journal.now.facts (of at.now) }
    ensures { IfOk result (FirstBroken (Tells (rules.job_waits journal.now.facts (of at.now))
        ∷ Tells (rules.full journal.now.facts (of at.now)) ∷ [])) }
{
    match job_waits(alloc, journal, at)? {
        Some(rule) => Ok(Some(rule)),
        None => Ok(full(journal, at)),
    }
}

/// The first rule that is broken where an agent asks for a job by its name: `job.unknown` where the
/// run, the stage or the label isn't there, else as `broken` says.
pub fn broken_of_name(
    alloc: Global,
    journal: &IndexedJournal,
    moment: Moment,
    agent: &AgentSetting,
    name: &JobName,
) -> Result<Option<Rule>, Memory>
    requires moment { moment ≤ last_moment }
    requires fit { AreFit journal.now.facts }
    ensures { IfOk result (NameBroken journal.now.facts moment agent.now name.now) }
{
    match job_named(journal.journal(), name) {
        Some(at) => broken(alloc, journal, moment, agent, &at),
        None => Ok(Some(Rule::JobUnknown)),
    }
}
