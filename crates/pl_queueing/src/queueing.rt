ghost use Rattle.std.specs.Prelude.{◌≡◌, IfOk};
ghost use Rattle.std.specs.List.{find};
ghost use Rattle.std.specs.Option.{option_copied};
ghost use Rattle.pl_queueing.specs.Queueing as spec;

use pl_answers::{Answer, numbered};
use pl_base::{ExactCopy, Memory, Refusal, ResourceKey, Shared, Text};
use pl_facts::{Event, QueuedRun};
use pl_journal::Journal;
use pl_plan::{Compiled, PlanStage};
use pl_requests::Rule;
use std::alloc::Global;

/// The first of some uses that isn't there.
fn unknown_among<'k>(journal: &Journal, uses: &'k [ResourceKey]) -> Option<&'k ResourceKey>
    ensures { option_copied result ≡
        find (spec.is_unknown journal.now.facts) uses.now }
{
    uses.iter().find(|key| journal.resource(key).is_none())
}

/// The first use of some stages that isn't there, stage after stage.
fn unknown_use<'k>(journal: &Journal, stages: &'k [PlanStage]) -> Option<&'k ResourceKey>
    ensures { option_copied result ≡ spec.unknown_use journal.now.facts stages.now }
{
    for planned in stages {
        if let Some(key) = unknown_among(journal, planned.uses.as_slice()) {
            return Some(key);
        }
    }
    None
}

/// One more than the number of the run that was queued last, or 2^64 - 1 where that is more.
fn next_run(journal: &Journal) -> u64
    ensures { result ≡ spec.next_run journal.now }
{
    journal.last_run().saturating_add(1)
}

/// The answer where the run is queued.
fn queue_run(
    alloc: Global,
    journal: &Journal,
    pipeline: &Text,
    requester: &Text,
    compiled: Shared<Compiled>,
) -> Result<Answer, Memory>
    ensures { IfOk result (λ answer. answer ≡
        spec.queue_run journal.now pipeline.now requester.now compiled) }
{
    let run = next_run(journal);
    let reply = numbered(alloc, 201, "run", run)?;
    let pipeline = pipeline.copy(alloc)?;
    let requester = requester.copy(alloc)?;
    let queued = QueuedRun {
        run,
        pipeline,
        requester,
        compiled,
    };
    Ok(Answer::with_fact(reply, Event::RunQueued(Shared::new(alloc, queued)?)))
}

/// The answer where the pipeline compiles.
fn queue_compiled(
    alloc: Global,
    journal: &Journal,
    pipeline: &Text,
    requester: &Text,
    compiled: Shared<Compiled>,
) -> Result<Answer, Memory>
    ensures { IfOk result (λ answer. answer ≡
        spec.queue_compiled journal.now pipeline.now requester.now compiled) }
{
    if let Some(key) = unknown_use(journal, compiled.plan.stages.as_slice()) {
        let resource = key.copy(alloc)?;
        return Answer::refusal(alloc, 422, &Rule::ResourceUnknown { resource });
    }
    queue_run(alloc, journal, pipeline, requester, compiled)
}

/// What `POST /runs` and `POST /texts` are answered: 201 with the run's number, one more than the
/// last one's, and the run is queued, of this pipeline, by this requester, with the plan that was
/// made of it. Before that, in this order: 404 `pipeline.unknown` where nothing was made, since the
/// pipeline isn't there; 422 `compile.refused` where it doesn't compile, with the refusal; 422
/// `resource.unknown` where a stage uses a resource that isn't there, the first one. Memory where
/// memory is wanting.
pub fn queue(
    alloc: Global,
    journal: &Journal,
    pipeline: &Text,
    requester: &Text,
    made: Option<Result<Shared<Compiled>, Refusal>>,
) -> Result<Answer, Memory>
    ensures { IfOk result (λ answer. answer ≡
        spec.queue journal.now pipeline.now requester.now made) }
{
    match made {
        None => Answer::refusal(alloc, 404, &Rule::PipelineUnknown),
        Some(Err(refusal)) => Answer::refusal(alloc, 422, &Rule::CompileRefused { refusal }),
        Some(Ok(compiled)) => queue_compiled(alloc, journal, pipeline, requester, compiled),
    }
}
