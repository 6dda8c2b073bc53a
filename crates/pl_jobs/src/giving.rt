//! Jobs that are given, and why they aren't.

ghost use Rattle.std.specs.Prelude.{◌≡◌, ◌≤◌, None, IfOk};
ghost use Rattle.std.specs.Option.{option_copied};
ghost use Rattle.pl_granting.specs.Below.pl_due.specs.Fit.{AreFit, last_moment};
ghost use Rattle.pl_granting.specs.Asked.{of};
ghost use Rattle.pl_granting.specs.Named.{IsJobOf};
ghost use Rattle.pl_jobs.specs.Granting as spec;
ghost use Rattle.pl_journal.specs.Settings.{agent};

use pl_answers::{Answer, json_reply, no_content};
use pl_base::{ExactCopy, Memory, Moment, Shared, Text};
use pl_cond::variables_of;
use pl_facts::Event;
use pl_granting::{JobAt, broken_of_name, drawn, is_held_by, job_named, run_view};
use pl_journal::Journal;
use pl_objects::job_object;
use pl_open_runs::IndexedJournal;
use pl_refusals::rule_object;
use pl_requests::{AgentSetting, JobName, Reply, Rule};
use std::alloc::Global;

/// A job as an agent gets it, as a reply.
fn job_reply(alloc: Global, journal: &Journal, at: &JobAt<'_>) -> Result<Reply, Memory>
    requires fit { AreFit journal.now.facts }
    requires job { IsJobOf journal.now.facts (of at.now) }
    ensures { IfOk result (λ reply. reply ≡ spec.job_reply journal.now.facts (of at.now)) }
{
    let plan = &at.queued.compiled.plan;
    let view = run_view(alloc, journal, at.run, plan)?;
    let variables = variables_of(alloc, plan, at.stage, at.job, &view)?;
    let told = job_object(alloc, at.run, at.staged, at.planned, &variables)?;
    Ok(json_reply(200, told))
}

/// A job is given to an agent: it takes it, unless it holds it already.
fn give(
    alloc: Global,
    journal: &Journal,
    who: &AgentSetting,
    at: &JobAt<'_>,
) -> Result<Answer, Memory>
    requires fit { AreFit journal.now.facts }
    requires job { IsJobOf journal.now.facts (of at.now) }
    ensures { IfOk result (λ answer. answer ≡ spec.give journal.now.facts who.now (of at.now)) }
{
    let reply = job_reply(alloc, journal, at)?;
    if is_held_by(journal, &who.name, at) {
        return Ok(Answer::without_fact(reply));
    }
    let agent = Shared::new(alloc, who.name.copy(alloc)?)?;
    let event = Event::JobTaken {
        run: at.run,
        stage: at.stage,
        job: at.job,
        agent,
    };
    Ok(Answer::with_fact(reply, event))
}

/// The agent of a name.
fn agent_of<'j>(indexed: &'j IndexedJournal, name: &Text) -> Option<&'j AgentSetting>
    ensures { option_copied result ≡ agent name.now indexed.now.facts }
{
    indexed.journal().agent(name)
}

/// What `POST /draw` is answered: 200 with the job that the calling agent holds, or else with the
/// least, by run, then by stage, then by place, that it may be given, which it takes; 204 where
/// there is none. 404 `agent.unknown` where no agent has the caller's name. Memory where memory is
/// wanting.
///
/// Nothing is due on these facts: then these are the jobs for which a claim breaks no rule
/// (`pl_granting::granting_laws`).
pub fn draw(alloc: Global, indexed: &IndexedJournal, caller: &Text) -> Result<Answer, Memory>
    requires fit { AreFit indexed.now.facts }
    ensures { IfOk result (spec.Draws indexed.now.facts caller.now) }
{
    match agent_of(indexed, caller) {
        Some(who) => draw_as(alloc, indexed, who),
        None => Answer::refusal(alloc, 404, &Rule::AgentUnknown),
    }
}

fn draw_as(alloc: Global, indexed: &IndexedJournal, who: &AgentSetting) -> Result<Answer, Memory>
    requires fit { AreFit indexed.now.facts }
    ensures { IfOk result (spec.DrawsAs indexed.now.facts who.now) }
{
    match drawn(indexed, who) {
        Some(at) => give(alloc, indexed.journal(), who, &at),
        None => Ok(Answer::without_fact(no_content())),
    }
}

/// The answer where no rule is broken by a claim.
fn give_named(
    alloc: Global,
    journal: &Journal,
    who: &AgentSetting,
    name: &JobName,
) -> Result<Answer, Memory>
    requires fit { AreFit journal.now.facts }
    ensures { IfOk result (λ answer. answer ≡
        spec.give_named journal.now.facts who.now name.now None) }
{
    match job_named(journal, name) {
        Some(at) => give(alloc, journal, who, &at),
        None => Answer::refusal(alloc, 403, &Rule::JobUnknown),
    }
}

/// The answer of a claim by an agent.
fn claim_as(
    alloc: Global,
    indexed: &IndexedJournal,
    moment: Moment,
    who: &AgentSetting,
    name: &JobName,
) -> Result<Answer, Memory>
    requires moment { moment ≤ last_moment }
    requires fit { AreFit indexed.now.facts }
    ensures { IfOk result (spec.ClaimsAs indexed.now.facts moment name.now who.now) }
{
    match broken_of_name(alloc, indexed, moment, who, name)? {
        Some(rule) => Answer::refusal(alloc, 403, &rule),
        None => give_named(alloc, indexed.journal(), who, name),
    }
}

/// What `POST /runs/{n}/stages/{s}/jobs/{j}/claim` is answered: 200 with the job, which the calling
/// agent takes unless it holds it already; 403 with the first rule that is broken, of the fourteen
/// in their order. 404 `agent.unknown` where no agent has the caller's name. Memory where memory is
/// wanting.
pub fn claim(
    alloc: Global,
    indexed: &IndexedJournal,
    moment: Moment,
    caller: &Text,
    name: &JobName,
) -> Result<Answer, Memory>
    requires moment { moment ≤ last_moment }
    requires fit { AreFit indexed.now.facts }
    ensures { IfOk result (spec.Claims indexed.now.facts moment caller.now name.now) }
{
    match agent_of(indexed, caller) {
        Some(who) => claim_as(alloc, indexed, moment, who, name),
        None => Answer::refusal(alloc, 404, &Rule::AgentUnknown),
    }
}

/// The rule by which an agent can't have a job, or that there is none.
fn why_as(
    alloc: Global,
    indexed: &IndexedJournal,
    moment: Moment,
    who: &AgentSetting,
    name: &JobName,
) -> Result<Answer, Memory>
    requires moment { moment ≤ last_moment }
    requires fit { AreFit indexed.now.facts }
    ensures { IfOk result (spec.AsksAs indexed.now.facts moment name.now who.now) }
{
    let rule = match broken_of_name(alloc, indexed, moment, who, name)? {
        Some(rule) => rule,
        None => Rule::NoRule,
    };
    let told = rule_object(alloc, &rule)?;
    Ok(Answer::without_fact(json_reply(200, told)))
}

/// What `GET /runs/{n}/stages/{s}/jobs/{j}/why/{agent}` is answered: 200 with the rule that a claim
/// of this job by the named agent would break, or `none`. 404 `agent.unknown` where no agent has
/// that name. Nothing happens by it. Memory where memory is wanting.
pub fn why(
    alloc: Global,
    indexed: &IndexedJournal,
    moment: Moment,
    named: &Text,
    name: &JobName,
) -> Result<Answer, Memory>
    requires moment { moment ≤ last_moment }
    requires fit { AreFit indexed.now.facts }
    ensures { IfOk result (spec.Asks indexed.now.facts moment named.now name.now) }
{
    match agent_of(indexed, named) {
        Some(who) => why_as(alloc, indexed, moment, who, name),
        None => Answer::refusal(alloc, 404, &Rule::AgentUnknown),
    }
}
