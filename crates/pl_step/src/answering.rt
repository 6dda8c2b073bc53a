//! What a request is answered on settled facts.

ghost use Rattle.std.specs.Prelude.{◌≡◌, ◌≤◌, IfOk, codes};
ghost use Rattle.pl_decisions.specs.Below.pl_due.specs.Fit.{AreFit, last_moment};
ghost use Rattle.pl_queueing.specs.Queueing as spec;
ghost use Rattle.pl_step.specs.Answering.{Answers};

use pl_answers::{Answer, empty_object};
use pl_base::{Memory, Moment, Refusal, Shared, Text};
use pl_decisions::decide;
use pl_jobs::{claim, draw, report, why};
use pl_journal::Journal;
use pl_open_runs::IndexedJournal;
use pl_plan::Compiled;
use pl_queueing::queue;
use pl_requests::Request;
use pl_runs::{cancel, read_run};
use pl_settings::{
    get_file, put_file, remove_file, set_agent, set_pipeline, set_principal, set_resource,
};
use std::alloc::Global;

/// The answer where a text is queued: its pipeline is `text`.
fn queue_text(
    alloc: Global,
    journal: &Journal,
    who: &Text,
    made: Option<Result<Shared<Compiled>, Refusal>>,
) -> Result<Answer, Memory>
    ensures { IfOk result (λ answer. answer ≡ spec.queue journal.now (codes "text") who.now made) }
{
    let pipeline = Text::from_str(alloc, "text")?;
    queue(alloc, journal, &pipeline, who, made)
}

/// What a request of a principal of this name is answered at a moment, where nothing is due.
pub(crate) fn answer(
    alloc: Global,
    indexed: &IndexedJournal,
    moment: Moment,
    who: &Text,
    made: Option<Result<Shared<Compiled>, Refusal>>,
    request: &Request,
) -> Result<Answer, Memory>
    requires moment { moment ≤ last_moment }
    requires fit { AreFit indexed.now.facts }
    ensures { IfOk result (Answers indexed.now moment who.now made request.now) }
{
    let journal = indexed.journal();
    match request {
        Request::PutFile(file) => put_file(alloc, journal, file),
        Request::RemoveFile(key) => remove_file(alloc, journal, key),
        Request::GetFile(key) => get_file(alloc, journal, key),
        Request::SetPipeline(told) => set_pipeline(alloc, told),
        Request::SetResource(told) => set_resource(alloc, indexed, told),
        Request::SetPrincipal(told) => set_principal(alloc, journal, told),
        Request::SetAgent(told) => set_agent(alloc, told),
        Request::QueueText(_) => queue_text(alloc, journal, who, made),
        Request::Queue(order) => queue(alloc, journal, &order.pipeline, who, made),
        Request::ReadRun { run } => read_run(alloc, journal, *run),
        Request::Cancel { run } => cancel(alloc, indexed, *run),
        Request::Decide {
            run,
            stage,
            approve,
        } => decide(alloc, journal, who, *run, stage, *approve),
        Request::Draw => draw(alloc, indexed, who),
        Request::Claim(job) => claim(alloc, indexed, moment, who, job),
        Request::Why { job, agent } => why(alloc, indexed, moment, agent, job),
        Request::Report { job, report: told } => report(alloc, journal, who, job, told),
        Request::Shutdown => Ok(Answer::without_fact(empty_object(alloc))),
    }
}
