ghost use Rattle.std.specs.Prelude.{◌≡◌, IfOk};
ghost use Rattle.pl_keeper.specs.declared.records.Record.TheVariants.{Run};
ghost use Rattle.pl_keeper.specs.Rows.{IsKept, IsKeptRun, IsShortRecord, IsShortRun, row_of};

use crate::parts::row_from;
use crate::records::{KeptRun, Record};
use pl_base::{Memory, Row};
use pl_fields::RawSlice;
use std::alloc::Global;

/// The row of what is kept.
pub fn encode(alloc: Global, kept: &Record) -> Result<Row, Memory>
    requires { IsShortRecord kept.now }
    ensures row { IfOk result (λ row. row ≡ row_of kept.now) }
    ensures fits { IfOk result (λ row. IsKept kept.now) }
{
    match kept {
        Record::Meta(meta) => {
            let numbers = (meta.moment, (meta.run, (meta.version, meta.change)));
            row_from(alloc, 0, &(), &numbers)
        }
        Record::File(file) => {
            let bytes = file.text.as_slice();
            row_from(alloc, 1, &file.key, &RawSlice { bytes })
        }
        Record::Pipeline(pipeline) => {
            let file = (&pipeline.repo, &pipeline.path);
            row_from(alloc, 2, &pipeline.name, &file)
        }
        Record::Resource(resource) => {
            let guards = (&resource.pipelines, &resource.checks);
            row_from(alloc, 3, &resource.key, &(resource.exclusive, guards))
        }
        Record::Principal(principal) => {
            let body = (&principal.roles, principal.digest);
            row_from(alloc, 4, &principal.name, &body)
        }
        Record::Agent(agent) => {
            let body = (&agent.pool, &agent.capabilities);
            row_from(alloc, 5, &agent.name, &body)
        }
        Record::Run(run) => run_row(alloc, run),
        Record::Stage(stage) => {
            let body = (stage.started, &stage.ended);
            row_from(alloc, 7, &(stage.run, stage.position), &body)
        }
        Record::Job(job) => {
            let key = (job.run, (job.stage, job.position));
            row_from(alloc, 8, &key, &(&job.taken, &job.ended))
        }
        Record::Decision(decision) => {
            let key = (decision.run, (decision.stage, &decision.approver));
            row_from(alloc, 9, &key, &(decision.approve, decision.moment))
        }
    }
}

/// The row of a run.
fn run_row(alloc: Global, run: &KeptRun) -> Result<Row, Memory>
    requires { IsShortRun run.now }
    ensures row { IfOk result (λ row. row ≡ row_of (Run run.now)) }
    ensures fits { IfOk result (λ row. IsKeptRun run.now) }
{
    let sources = (&run.root, (&run.arguments, (&run.files, run.canceled)));
    let body = (&run.pipeline, (&run.requester, (run.moment, sources)));
    row_from(alloc, 6, &run.run, &body)
}
