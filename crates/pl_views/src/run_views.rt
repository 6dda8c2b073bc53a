//! A run as its conditions see it.

ghost use Rattle.std.specs.Prelude.{◌≡◌, [], IfOk, map, unwrap_or};
ghost use Rattle.std.specs.List.{range_with_len};
ghost use Rattle.std.specs.Option.{option_copied};
ghost use Rattle.pl_journal.specs.Runs as runs;
ghost use Rattle.pl_journal.specs.Settings.{by};
ghost use Rattle.pl_views.specs.RunViews as spec;

use pl_base::{ExactCopy, List, Memory, Outcome, Shared, Text};
use pl_journal::{Fact, Journal, outcome_told, outputs_told};
use pl_plan::Plan;
use pl_results::{JobView, RunView, jobs_of};
use std::alloc::Global;

/// The outputs of a job, each by its key.
type Outputs = Shared<List<(Text, Text)>>;

/// A place as facts tell it, in 32 bits. One that doesn't fit is want of memory.
fn place(at: usize) -> Result<u32, Memory>
    ensures { IfOk result (λ place. place ≡ at) }
{
    match u32::try_from(at) {
        Ok(place) => Ok(place),
        Err(_) => Err(Memory),
    }
}

/// How something ended, by the fact that ended it.
fn outcome_of(ending: Option<&Fact>) -> Option<Outcome>
    ensures { result ≡ by runs.outcome_told (option_copied ending.entry) }
{
    match ending {
        Some(fact) => outcome_told(&fact.event),
        None => None,
    }
}

/// The outputs of a job by the fact that ended it; none where that tells none.
fn outputs_of(alloc: Global, ending: Option<&Fact>, nothing: &Outputs) -> Result<Outputs, Memory>
    requires { nothing.now ≡ [] }
    ensures { IfOk result (λ outputs. outputs ≡
        unwrap_or (by runs.outputs_told (option_copied ending.entry)) []) }
{
    match ending {
        Some(fact) => match outputs_told(&fact.event) {
            Some(outputs) => outputs.copy(alloc),
            None => nothing.copy(alloc),
        },
        None => nothing.copy(alloc),
    }
}

/// The job at a place.
fn job_view(
    alloc: Global,
    journal: &Journal,
    run: u64,
    stage: u32,
    job: u32,
    nothing: &Outputs,
) -> Result<JobView, Memory>
    requires { nothing.now ≡ [] }
    ensures { IfOk result (λ view. view ≡ spec.job_view run stage journal.now.facts job) }
{
    let ending = journal.job_ending(run, stage, job);
    let outputs = outputs_of(alloc, ending, nothing)?;
    Ok(JobView {
        result: outcome_of(ending),
        outputs,
    })
}

/// So many jobs of the stage at a place.
fn job_views(
    alloc: Global,
    journal: &Journal,
    run: u64,
    stage: u32,
    jobs: usize,
    nothing: &Outputs,
) -> Result<List<JobView>, Memory>
    requires { nothing.now ≡ [] }
    ensures { IfOk result (λ views. views ≡
        map (spec.job_view run stage journal.now.facts) (range_with_len 0 jobs)) }
{
    let mut views = List::new(alloc);
    for at in 0..jobs {
        views.push(job_view(alloc, journal, run, stage, place(at)?, nothing)?)?;
    }
    Ok(views)
}

/// The jobs of all stages.
fn all_jobs(
    alloc: Global,
    journal: &Journal,
    run: u64,
    plan: &Plan,
) -> Result<List<List<JobView>>, Memory>
    ensures { IfOk result (λ all. all ≡ map (spec.job_views run plan.now journal.now.facts)
        (spec.places plan.now.stages)) }
{
    let nothing = Shared::new(alloc, List::new(alloc))?;
    let mut all = List::new(alloc);
    for at in 0..plan.stages.len() {
        let jobs = jobs_of(plan, at).len();
        all.push(job_views(alloc, journal, run, place(at)?, jobs, &nothing)?)?;
    }
    Ok(all)
}

/// How so many stages ended.
fn stage_results(
    alloc: Global,
    journal: &Journal,
    run: u64,
    stages: usize,
) -> Result<List<Option<Outcome>>, Memory>
    ensures { IfOk result (λ results. results ≡
        map (λ stage. by runs.outcome_told (runs.stage_end run stage journal.now.facts))
        (range_with_len 0 stages)) }
{
    let mut results = List::new(alloc);
    for at in 0..stages {
        results.push(outcome_of(journal.stage_end(run, place(at)?)))?;
    }
    Ok(results)
}

/// A run of a plan as its conditions see it: whether it is canceled, how its stages and its jobs
/// ended, and the jobs' outputs, all in the plan's order. A job of a stage that ended without a
/// start ended as its stage did, and has no outputs. The plan isn't copied, and outputs are shared.
/// Memory may come at any time, and nothing else.
pub fn run_view(alloc: Global, journal: &Journal, run: u64, plan: &Plan) -> Result<RunView, Memory>
    ensures { IfOk result (λ view. view ≡ spec.run_view plan.now run journal.now.facts) }
{
    let stages = stage_results(alloc, journal, run, plan.stages.len())?;
    let jobs = all_jobs(alloc, journal, run, plan)?;
    Ok(RunView {
        canceled: journal.canceling(run).is_some(),
        stages,
        jobs,
    })
}
