//! The row at a place.

ghost use Rattle.std.specs.Prelude.{◌≡◌, IfOk, IfSome};
ghost use Rattle.pl_keeper.specs.Rows.{IsKept};
ghost use Rattle.pl_kept.specs.Kept.{kept_at, row_at};
ghost use Rattle.pl_spots.specs.Spots.{seen};

use crate::runs::run_row;
use crate::spots::Spot;
use pl_base::{Memory, Row};
use pl_kept::{
    Journal, agent_row, decision_row, file_row, job_row, pipeline_row, principal_row, resource_row,
    stage_row,
};
use std::alloc::Global;

/// The row that stands at a place, of what the journal tells, or None where none does. Memory where
/// memory is wanting, and where a text or a list is too long for a row, which has lengths of four
/// bytes.
pub fn row_at(alloc: Global, journal: &Journal, place: Spot<'_>) -> Result<Option<Row>, Memory>
    ensures row { IfOk result (λ row. row ≡ row_at (seen place.entry) journal.now.facts) }
    ensures fits { IfOk result
        (λ _. IfSome (kept_at (seen place.entry) journal.now.facts) IsKept) }
{
    match place {
        Spot::File(key) => file_row(alloc, journal, key),
        Spot::Pipeline(name) => pipeline_row(alloc, journal, name),
        Spot::Resource(key) => resource_row(alloc, journal, key),
        Spot::Principal(name) => principal_row(alloc, journal, name),
        Spot::Agent(name) => agent_row(alloc, journal, name),
        Spot::Run(run) => run_row(alloc, journal, run),
        Spot::Stage(run, stage) => stage_row(alloc, journal, run, stage),
        Spot::Job(run, stage, job) => job_row(alloc, journal, run, stage, job),
        Spot::Decision(run, stage, approver) => {
            decision_row(alloc, journal, run, stage, approver)
        }
    }
}
