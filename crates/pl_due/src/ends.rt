//! The facts by which jobs and stages end.

ghost use Rattle.std.specs.Prelude.{◌≡◌, IfOk, Some};
ghost use Rattle.pl_base.specs.declared.outcome.Outcome.TheVariants.{Skipped};
ghost use Rattle.pl_due.specs.Kinds as spec;
ghost use Rattle.pl_facts.specs.declared.fact.Event.TheVariants.{StageEnded};
ghost use Rattle.pl_rules.specs.declared.rule.Rule.TheVariants.{LockSuperseded};

use pl_base::{List, Memory, Outcome, Shared};
use pl_facts::{Event, Rule};
use std::alloc::Global;

/// A job ends by a rule, with no report and no outputs.
fn job_end(
    alloc: Global,
    run: u64,
    stage: u32,
    job: u32,
    outcome: Outcome,
    rule: Rule,
) -> Result<Event, Memory>
    ensures { IfOk result (λ event. event ≡ spec.job_end_by run stage job outcome rule) }
{
    let rule = Shared::new(alloc, rule)?;
    let outputs = Shared::new(alloc, List::new(alloc))?;
    Ok(Event::JobEnded {
        run,
        stage,
        job,
        outcome,
        rule: Some(rule),
        reported: None,
        outputs,
    })
}

/// A stage ends by a rule.
pub(crate) fn stage_end(
    alloc: Global,
    run: u64,
    stage: u32,
    outcome: Outcome,
    rule: Rule,
) -> Result<Event, Memory>
    ensures { IfOk result (λ event. event ≡ StageEnded run stage outcome (Some rule)) }
{
    let rule = Shared::new(alloc, rule)?;
    Ok(Event::StageEnded {
        run,
        stage,
        outcome,
        rule: Some(rule),
    })
}

/// A job ends because it is out of time.
pub(crate) fn timeout_end(alloc: Global, run: u64, stage: u32, job: u32) -> Result<Event, Memory>
    ensures { IfOk result (λ event. event ≡ spec.timeout_end run stage job) }
{
    job_end(alloc, run, stage, job, Outcome::Canceled, Rule::JobTimeout)
}

/// How something ends whose condition is false.
fn outcome_of_false(canceled: bool) -> Outcome
    ensures { result ≡ spec.outcome_of_false canceled }
{
    if canceled {
        Outcome::Canceled
    } else {
        Outcome::Skipped
    }
}

/// By which rule it is told to have ended.
fn rule_of_false(canceled: bool) -> Rule
    ensures { result ≡ spec.rule_of_false canceled }
{
    if canceled {
        Rule::RunCanceled
    } else {
        Rule::ConditionFalse
    }
}

/// A job ends because its condition is false.
pub(crate) fn false_job_end(
    alloc: Global,
    canceled: bool,
    run: u64,
    stage: u32,
    job: u32,
) -> Result<Event, Memory>
    ensures { IfOk result (λ event. event ≡ spec.false_job_end canceled run stage job) }
{
    let outcome = outcome_of_false(canceled);
    job_end(alloc, run, stage, job, outcome, rule_of_false(canceled))
}

/// A stage ends because its condition is false.
pub(crate) fn false_stage_end(
    alloc: Global,
    canceled: bool,
    run: u64,
    stage: u32,
) -> Result<Event, Memory>
    ensures { IfOk result (λ event. event ≡ spec.false_stage_end canceled run stage) }
{
    let outcome = outcome_of_false(canceled);
    stage_end(alloc, run, stage, outcome, rule_of_false(canceled))
}

/// How a stage ends of which a check fails by a rule.
fn outcome_of_fail(rule: &Rule) -> Outcome
    ensures { result ≡ spec.outcome_of_fail rule.now }
{
    match rule {
        Rule::ApprovalTimeout => Outcome::Skipped,
        _ => Outcome::Failed,
    }
}

/// A stage ends because a check fails.
pub(crate) fn fail_end(alloc: Global, run: u64, stage: u32, rule: Rule) -> Result<Event, Memory>
    ensures { IfOk result (λ event. event ≡ spec.fail_end run stage rule) }
{
    let outcome = outcome_of_fail(&rule);
    stage_end(alloc, run, stage, outcome, rule)
}

/// A stage ends because it gives way to one of a later run.
pub(crate) fn superseded_end(
    alloc: Global,
    run: u64,
    stage: u32,
    later: u64,
) -> Result<Event, Memory>
    ensures { IfOk result (λ event. event ≡
        StageEnded run stage Skipped (Some (LockSuperseded later))) }
{
    let rule = Rule::LockSuperseded { run: later };
    stage_end(alloc, run, stage, Outcome::Skipped, rule)
}
