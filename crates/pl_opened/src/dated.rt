//! What has a moment, as facts.

ghost use Rattle.std.specs.Prelude.{◌≡◌, ◌++◌, ◌∷◌, [], IfOk, OnOk};
ghost use Rattle.pl_opened.specs.Told as spec;

use pl_base::{Memory, Shared};
use pl_facts::{Event, Fact, QueuedRun, Rule};
use pl_keeper::{JobEnd, KeptDecision, KeptJob, KeptRun, KeptStage, StageEnd, Taking};
use pl_plan::Compiled;
use std::alloc::Global;

/// Puts the facts of a run behind the others: that it was queued, and then that it was canceled.
pub(crate) fn add_run(
    alloc: Global,
    dated: &mut Vec<Fact>,
    compiled: Option<Shared<Compiled>>,
    told: KeptRun,
) -> Result<(), Memory>
    ensures { OnOk result
        (dated.new.items ≡ dated.old.items ++ spec.run_facts compiled told) }
{
    let KeptRun {
        run,
        pipeline,
        requester,
        moment,
        canceled,
        ..
    } = told;
    if let Some(compiled) = compiled {
        let queued = QueuedRun {
            run,
            pipeline,
            requester,
            compiled,
        };
        let event = Event::RunQueued(Shared::new(alloc, queued)?);
        dated.push(Fact { moment, event })?;
    }
    if let Some(moment) = canceled {
        let event = Event::RunCanceled { run };
        dated.push(Fact { moment, event })?;
    }
    Ok(())
}

/// A rule that ended something, to be shared.
fn shared(alloc: Global, rule: Option<Rule>) -> Result<Option<Shared<Rule>>, Memory>
    ensures { IfOk result (λ shared. shared ≡ rule) }
{
    match rule {
        Some(rule) => Ok(Some(Shared::new(alloc, rule)?)),
        None => Ok(None),
    }
}

/// Puts the facts of a stage behind the others: its start, and then its end.
pub(crate) fn add_stage(alloc: Global, dated: &mut Vec<Fact>, told: KeptStage) -> Result<(), Memory>
    ensures { OnOk result (dated.new.items ≡ dated.old.items ++ spec.stage_facts told) }
{
    let KeptStage {
        run,
        position,
        started,
        ended,
    } = told;
    let stage = position;
    if let Some(moment) = started {
        let event = Event::StageStarted { run, stage };
        dated.push(Fact { moment, event })?;
    }
    if let Some(ended) = ended {
        let StageEnd {
            moment,
            outcome,
            rule,
        } = ended;
        let rule = shared(alloc, rule)?;
        let event = Event::StageEnded {
            run,
            stage,
            outcome,
            rule,
        };
        dated.push(Fact { moment, event })?;
    }
    Ok(())
}

/// Puts the facts of a job behind the others: its taking, and then its end.
pub(crate) fn add_job(alloc: Global, dated: &mut Vec<Fact>, told: KeptJob) -> Result<(), Memory>
    ensures { OnOk result (dated.new.items ≡ dated.old.items ++ spec.job_facts told) }
{
    let KeptJob {
        run,
        stage,
        position,
        taken,
        ended,
    } = told;
    if let Some(taken) = taken {
        add_taking(alloc, dated, run, stage, position, taken)?;
    }
    if let Some(ended) = ended {
        add_job_end(alloc, dated, run, stage, position, ended)?;
    }
    Ok(())
}

/// Puts the fact of a taking behind the others.
fn add_taking(
    alloc: Global,
    dated: &mut Vec<Fact>,
    run: u64,
    stage: u32,
    job: u32,
    taken: Taking,
) -> Result<(), Memory>
    ensures { OnOk result (dated.new.items ≡
        dated.old.items ++ spec.taking run stage job taken ∷ []) }
{
    let Taking { agent, moment } = taken;
    let agent = Shared::new(alloc, agent)?;
    let event = Event::JobTaken {
        run,
        stage,
        job,
        agent,
    };
    dated.push(Fact { moment, event })?;
    Ok(())
}

/// Puts the fact of a job's end behind the others.
fn add_job_end(
    alloc: Global,
    dated: &mut Vec<Fact>,
    run: u64,
    stage: u32,
    job: u32,
    ended: JobEnd,
) -> Result<(), Memory>
    ensures { OnOk result (dated.new.items ≡
        dated.old.items ++ spec.job_end run stage job ended ∷ []) }
{
    let JobEnd {
        moment,
        outcome,
        rule,
        reported,
        outputs,
    } = ended;
    let rule = shared(alloc, rule)?;
    let outputs = Shared::new(alloc, outputs)?;
    let event = Event::JobEnded {
        outcome,
        reported,
        stage,
        job,
        run,
        rule,
        outputs,
    };
    dated.push(Fact { moment, event })?;
    Ok(())
}

/// Puts the fact of a decision behind the others.
pub(crate) fn add_decision(
    alloc: Global,
    dated: &mut Vec<Fact>,
    told: KeptDecision,
) -> Result<(), Memory>
    ensures { OnOk result (dated.new.items ≡ dated.old.items ++ spec.decision told ∷ []) }
{
    let KeptDecision {
        run,
        stage,
        approver,
        approve,
        moment,
    } = told;
    let approver = Shared::new(alloc, approver)?;
    let event = Event::DecisionMade {
        run,
        stage,
        approver,
        approve,
    };
    dated.push(Fact { moment, event })?;
    Ok(())
}
