//! Rows of jobs.

ghost use Rattle.std.specs.Prelude.{◌≡◌, IfOk, IfSome};
ghost use Rattle.std.specs.Option.{option_map};
ghost use Rattle.pl_keeper.specs.Rows.{row_of, IsKept};
ghost use Rattle.pl_kept.specs.Kept.{job_kept};

use crate::ends::{job_end_of, taking_of};
use crate::planned::planned_job;
use crate::written::written;
use pl_base::{Memory, Row};
use pl_journal::Journal;
use std::alloc::Global;

/// The row of a job, or None where no run has it.
pub fn job_row(
    alloc: Global,
    journal: &Journal,
    run: u64,
    stage: u32,
    job: u32,
) -> Result<Option<Row>, Memory>
    ensures row { IfOk result
        (λ row. row ≡ option_map row_of (job_kept run stage job journal.now.facts)) }
    ensures fits { IfOk result (λ _. IfSome (job_kept run stage job journal.now.facts) IsKept) }
{
    match planned_job(journal, run, stage, job) {
        Some(_) => {
            let taken = taking_of(journal.taking(run, stage, job));
            let ended = job_end_of(journal.job_end(run, stage, job));
            written(alloc, 8, &(run, (stage, job)), &(taken, ended))
        }
        None => Ok(None),
    }
}
