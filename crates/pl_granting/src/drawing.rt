//! The job that an agent is given where it asks for any.

ghost use Rattle.std.specs.Prelude.{◌≡◌, ◌<◌, ◌^◌, None, length};
ghost use Rattle.pl_due.specs.Fit.{AreFit};
ghost use Rattle.pl_due.specs.Nodes.{IsStageOf};
ghost use Rattle.pl_due.specs.Scans.{IsFirstTrue};
ghost use Rattle.pl_granting.specs.Asked.{seen};
ghost use Rattle.pl_granting.specs.Drawn as spec;
ghost use Rattle.pl_granting.specs.Rules.{held_job};
ghost use Rattle.pl_granting.specs.Tests.{IsOpenTo, OfRun, OfStage, may_take_at};
ghost use Rattle.pl_journal.specs.Runs.{queueing, run_told};
ghost use Rattle.pl_journal.specs.Settings.{by};

use crate::agents::held_job;
use crate::free::{is_at_work, may_take};
use crate::job_at::{JobAt, job_in};
use pl_due::IndexedJournal;
use pl_facts::{AgentSetting, QueuedRun};
use pl_journal::Journal;
use pl_plan::PlanStage;

/// Whether the job at a place of a stage that runs may be given to an agent that holds none.
fn may_take_at(
    journal: &Journal,
    agent: &AgentSetting,
    run: u64,
    stage: u32,
    queued: &QueuedRun,
    staged: &PlanStage,
    job: u32,
) -> bool
    requires { length staged.now.jobs < 2 ^ 32 }
    ensures { result ≡ may_take_at journal.now.facts agent.now run stage queued.now staged.now job }
{
    match job_in(run, stage, queued, staged, job) {
        Some(at) => may_take(journal, agent, &at),
        None => false,
    }
}

/// The place of the first job of a stage that runs which may be given to an agent that holds none.
fn first_place(
    journal: &Journal,
    agent: &AgentSetting,
    run: u64,
    stage: u32,
    queued: &QueuedRun,
    staged: &PlanStage,
) -> Option<u32>
    requires { length staged.now.jobs < 2 ^ 32 }
    ensures { IsFirstTrue
        (may_take_at journal.now.facts agent.now run stage queued.now staged.now) result }
{
    for job in 0..staged.jobs.len() as u32 {
        if may_take_at(journal, agent, run, stage, queued, staged, job) {
            return Some(job);
        }
    }
    None
}

/// The first job of a stage that may be given to an agent that holds none.
fn first_in_stage<'j>(
    journal: &'j Journal,
    agent: &AgentSetting,
    run: u64,
    stage: u32,
    queued: &'j QueuedRun,
    staged: &'j PlanStage,
) -> Option<JobAt<'j>>
    requires idle { held_job journal.now.facts agent.now.name ≡ None }
    requires few { length staged.now.jobs < 2 ^ 32 }
    requires there { IsStageOf journal.now.facts run stage queued.now staged.now }
    ensures { spec.Least (OfStage journal.now.facts agent.now run stage) (seen result) }
{
    if !is_at_work(journal, run, stage, staged) {
        return None;
    }
    match first_place(journal, agent, run, stage, queued, staged) {
        Some(job) => job_in(run, stage, queued, staged, job),
        None => None,
    }
}

/// The first job of the stage at a place, if it is there, that may be given to an agent that holds
/// none.
fn first_at<'j>(
    journal: &'j Journal,
    agent: &AgentSetting,
    run: u64,
    stage: u32,
    queued: &'j QueuedRun,
) -> Option<JobAt<'j>>
    requires idle { held_job journal.now.facts agent.now.name ≡ None }
    requires fit { AreFit journal.now.facts }
    requires there { by run_told (queueing run journal.now.facts) ≡ Some queued.now }
    ensures { spec.Least (OfStage journal.now.facts agent.now run stage) (seen result) }
{
    match queued.compiled.plan.stages.get(stage as usize) {
        Some(staged) => first_in_stage(journal, agent, run, stage, queued, staged),
        None => None,
    }
}

/// The first job of a run's stages that may be given to an agent that holds none.
fn first_of_stages<'j>(
    journal: &'j Journal,
    agent: &AgentSetting,
    run: u64,
    queued: &'j QueuedRun,
) -> Option<JobAt<'j>>
    requires idle { held_job journal.now.facts agent.now.name ≡ None }
    requires fit { AreFit journal.now.facts }
    requires there { by run_told (queueing run journal.now.facts) ≡ Some queued.now }
    ensures { spec.Least (OfRun journal.now.facts agent.now run) (seen result) }
{
    for stage in 0..queued.compiled.plan.stages.len() as u32 {
        if let Some(at) = first_at(journal, agent, run, stage, queued) {
            return Some(at);
        }
    }
    None
}

/// The first job of a run, if it is there, that may be given to an agent that holds none.
fn first_of_run<'j>(journal: &'j Journal, agent: &AgentSetting, run: u64) -> Option<JobAt<'j>>
    requires idle { held_job journal.now.facts agent.now.name ≡ None }
    requires fit { AreFit journal.now.facts }
    ensures { spec.Least (OfRun journal.now.facts agent.now run) (seen result) }
{
    match journal.run(run) {
        Some(queued) => first_of_stages(journal, agent, run, queued),
        None => None,
    }
}

/// The least job that may be given to an agent that holds none. It is of an open run.
fn first_of_all<'j>(journal: &'j IndexedJournal, agent: &AgentSetting) -> Option<JobAt<'j>>
    requires idle { held_job journal.now.facts agent.now.name ≡ None }
    requires fit { AreFit journal.now.facts }
    ensures { spec.Least (IsOpenTo journal.now.facts agent.now) (seen result) }
{
    for run in journal.open_runs() {
        if let Some(at) = first_of_run(journal.journal(), agent, *run) {
            return Some(at);
        }
    }
    None
}

/// The job that an agent is given where it asks for any: the one that it holds, else the least, by
/// run, then by stage, then by place, that it may be given, else None. It takes no memory.
///
/// It may be given a job that hasn't ended and that no other agent holds, where it holds none, is
/// of the job's pool and has what the job demands, the job's stage runs, neither waits for another,
/// and fewer legs of the job run than may at once. Where nothing is due these are the jobs for
/// which `broken` tells no rule (`granting_laws`). Only open runs are looked at. Each run's plan
/// can run, as `pl_due::due` asks.
pub fn drawn<'j>(journal: &'j IndexedJournal, agent: &AgentSetting) -> Option<JobAt<'j>>
    requires fit { AreFit journal.now.facts }
    ensures { spec.Drawn journal.now.facts agent.now (seen result) }
{
    match held_job(journal.journal(), &agent.name) {
        Some(at) => Some(at),
        None => first_of_all(journal, agent),
    }
}
