//! Jobs that are reported.

ghost use Rattle.std.specs.Prelude.{◌≡◌, IfOk};
ghost use Rattle.std.specs.Option.{option_copied};
ghost use Rattle.pl_granting.specs.Below.pl_due.specs.Fit.{AreFit};
ghost use Rattle.pl_granting.specs.Asked.{of};
ghost use Rattle.pl_jobs.specs.Reports as spec;

use pl_answers::{Answer, empty_object};
use pl_base::{ExactCopy, List, Memory, Outcome, Shared, Text};
use pl_facts::Event;
use pl_granting::{JobAt, ended, job_named};
use pl_journal::{Journal, outputs_told, rule_told, taker_told};
use pl_requests::{JobName, Report, Rule};
use std::alloc::Global;

/// The result that counts: a failure that the job's stage is to survive is a success with issues.
fn effective(go_on: bool, outcome: Outcome) -> Outcome
    ensures { result ≡ spec.effective go_on outcome }
{
    match (go_on, outcome) {
        (true, Outcome::Failed) => Outcome::SucceededWithIssues,
        _ => outcome,
    }
}

/// The result that an event says was reported, if it says that.
fn reported_told(event: &Event) -> Option<Outcome>
    ensures { result ≡ spec.reported_told event.now }
{
    match event {
        Event::JobEnded { reported, .. } => *reported,
        _ => None,
    }
}

/// The result that was reported of a job, if one was.
fn reported(journal: &Journal, at: &JobAt<'_>) -> Option<Outcome>
    ensures { result ≡ spec.reported journal.now.facts (of at.now) }
{
    match journal.job_end(at.run, at.stage, at.job) {
        Some(fact) => reported_told(&fact.event),
        None => None,
    }
}

/// The agent that took a job, whether it has ended or not.
fn taker<'j>(journal: &'j Journal, at: &JobAt<'_>) -> Option<&'j Text>
    ensures { option_copied result ≡ spec.taker journal.now.facts (of at.now) }
{
    match journal.taking(at.run, at.stage, at.job) {
        Some(fact) => taker_told(&fact.event),
        None => None,
    }
}

/// Whether a rule ended a job, and no report.
fn was_ended(journal: &Journal, at: &JobAt<'_>) -> bool
    ensures { result ≡ spec.was_ended journal.now.facts (of at.now) }
{
    match journal.job_ending(at.run, at.stage, at.job) {
        Some(fact) => rule_told(&fact.event).is_some(),
        None => false,
    }
}

/// Whether a job's outputs are these.
fn has_outputs(journal: &Journal, at: &JobAt<'_>, outputs: &List<(Text, Text)>) -> bool
    ensures { result ≡ spec.has_outputs journal.now.facts (of at.now) outputs.now }
{
    match journal.job_end(at.run, at.stage, at.job) {
        Some(fact) => match outputs_told(&fact.event) {
            Some(kept) => **kept == *outputs,
            None => false,
        },
        None => false,
    }
}

/// Outputs once more.
fn pairs_copied(alloc: Global, outputs: &List<(Text, Text)>) -> Result<List<(Text, Text)>, Memory>
    ensures { IfOk result (λ copies. copies ≡ outputs.now) }
{
    let mut copies = List::new(alloc);
    for output in outputs.as_slice() {
        let key = output.0.copy(alloc)?;
        let value = output.1.copy(alloc)?;
        copies.push((key, value))?;
    }
    Ok(copies)
}

/// The answer where the job was reported before.
fn report_again(
    alloc: Global,
    journal: &Journal,
    at: &JobAt<'_>,
    told: &Report,
    kept: Outcome,
) -> Result<Answer, Memory>
    ensures { IfOk result (λ answer. answer ≡
        spec.report_again journal.now.facts (of at.now) told.now kept) }
{
    if kept == told.outcome && has_outputs(journal, at, &told.outputs) {
        return Ok(Answer::without_fact(empty_object(alloc)));
    }
    Answer::refusal(alloc, 409, &Rule::ReportChanged { result: kept })
}

/// The answer to the agent that took the job.
fn report_taken(
    alloc: Global,
    journal: &Journal,
    at: &JobAt<'_>,
    told: &Report,
) -> Result<Answer, Memory>
    ensures { IfOk result (λ answer. answer ≡
        spec.report_taken journal.now.facts (of at.now) told.now) }
{
    if let Some(kept) = reported(journal, at) {
        return report_again(alloc, journal, at, told, kept);
    }
    let outputs = Shared::new(alloc, pairs_copied(alloc, &told.outputs)?)?;
    let event = Event::JobEnded {
        outcome: effective(at.planned.go_on, told.outcome),
        reported: Some(told.outcome),
        stage: at.stage,
        job: at.job,
        run: at.run,
        rule: None,
        outputs,
    };
    Ok(Answer::with_fact(empty_object(alloc), event))
}

/// Whether a job was taken by an agent of this name.
fn is_taker(journal: &Journal, at: &JobAt<'_>, name: &Text) -> bool
    ensures { result ≡ spec.is_taker journal.now.facts (of at.now) name.now }
{
    match taker(journal, at) {
        Some(agent) => *name == *agent,
        None => false,
    }
}

/// `report.stranger`: another agent took the job, or none did.
fn stranger(alloc: Global, journal: &Journal, at: &JobAt<'_>) -> Result<Rule, Memory>
    ensures { IfOk result (λ rule. rule ≡ spec.stranger journal.now.facts (of at.now)) }
{
    match taker(journal, at) {
        Some(agent) => Ok(Rule::ReportStranger {
            agent: Some(agent.copy(alloc)?),
        }),
        None => Ok(Rule::ReportStranger { agent: None }),
    }
}

/// The rule that ended a job, where no report did.
fn ended_otherwise(alloc: Global, journal: &Journal, at: &JobAt<'_>) -> Result<Option<Rule>, Memory>
    ensures { IfOk result (λ rule. rule ≡ spec.ended_otherwise journal.now.facts (of at.now)) }
{
    if was_ended(journal, at) {
        ended(alloc, journal, at)
    } else {
        Ok(None)
    }
}

/// The answer where the job is there.
fn report_job(
    alloc: Global,
    journal: &Journal,
    caller: &Text,
    at: &JobAt<'_>,
    told: &Report,
) -> Result<Answer, Memory>
    ensures { IfOk result (λ answer. answer ≡
        spec.report_job journal.now.facts caller.now told.now (of at.now)) }
{
    if let Some(rule) = ended_otherwise(alloc, journal, at)? {
        return Answer::refusal(alloc, 409, &rule);
    }
    if is_taker(journal, at, caller) {
        return report_taken(alloc, journal, at, told);
    }
    let rule = stranger(alloc, journal, at)?;
    Answer::refusal(alloc, 409, &rule)
}

/// What `POST /runs/{n}/stages/{s}/jobs/{j}/report` is answered: 200 `{}`, and the job has ended
/// with this result, which is a success with issues where it failed and the job goes on on errors,
/// and with these outputs. The same report once more is 200, and nothing happens.
///
/// Refused in this order: 404 `job.unknown`; 409 `job.ended`, with its result and by which rule,
/// where a rule ended it; 409 `report.stranger`, with who took it, where the caller didn't; 409
/// `report.changed`, with the result that was reported, where another report was made before.
/// Memory where memory is wanting. Each run's plan can run, as `pl_due::due` asks.
pub fn report(
    alloc: Global,
    journal: &Journal,
    caller: &Text,
    name: &JobName,
    told: &Report,
) -> Result<Answer, Memory>
    requires fit { AreFit journal.now.facts }
    ensures { IfOk result (λ answer. answer ≡
        spec.report journal.now.facts caller.now name.now told.now) }
{
    match job_named(journal, name) {
        Some(at) => report_job(alloc, journal, caller, &at, told),
        None => Answer::refusal(alloc, 404, &Rule::JobUnknown),
    }
}
