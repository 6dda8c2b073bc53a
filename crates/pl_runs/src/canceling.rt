ghost use Rattle.std.specs.Prelude.{◌≡◌, IfOk};
ghost use Rattle.pl_open_runs.specs.Open as open_runs;
ghost use Rattle.pl_runs.specs.Runs as spec;

use pl_answers::{Answer, empty_object};
use pl_base::Memory;
use pl_facts::Event;
use pl_open_runs::IndexedJournal;
use pl_requests::Rule;
use std::alloc::Global;

/// Whether a run has a stage that hasn't ended.
fn is_open(journal: &IndexedJournal, run: u64) -> bool
    ensures { result ≡ open_runs.is_open run journal.now.facts }
{
    journal.open_runs().contains(&run)
}

/// What `POST /runs/{n}/cancel` is answered: 200 `{}`, and the run is canceled from then on. A run
/// that is canceled stays so: 200 `{}`, and nothing happens. 404 `run.unknown` where no such run
/// was queued; 409 `run.ended` where all its stages have ended (Microsoft Learn, Azure Pipelines,
/// "Pipeline runs"). Memory where memory is wanting.
pub fn cancel(alloc: Global, journal: &IndexedJournal, run: u64) -> Result<Answer, Memory>
    ensures { IfOk result (λ answer. answer ≡ spec.cancel journal.now.facts run) }
{
    if journal.journal().run(run).is_none() {
        return Answer::refusal(alloc, 404, &Rule::RunUnknown);
    }
    if journal.journal().canceling(run).is_some() {
        return Ok(Answer::without_fact(empty_object(alloc)));
    }
    if !is_open(journal, run) {
        return Answer::refusal(alloc, 409, &Rule::RunEnded);
    }
    Ok(Answer::with_fact(empty_object(alloc), Event::RunCanceled { run }))
}
