//! Rows of decisions.

ghost use Rattle.std.specs.Prelude.{◌≡◌, IfOk, IfSome};
ghost use Rattle.std.specs.Option.{option_map};
ghost use Rattle.pl_keeper.specs.Rows.{row_of, IsKept};
ghost use Rattle.pl_kept.specs.Kept.{decided_kept, decision_kept};

use crate::written::written;
use pl_base::{Memory, Row, Text};
use pl_facts::Fact;
use pl_journal::{Journal, verdict_told};
use std::alloc::Global;

/// The row of a decision, or None where nothing was decided.
pub fn decision_row(
    alloc: Global,
    journal: &Journal,
    run: u64,
    stage: u32,
    approver: &Text,
) -> Result<Option<Row>, Memory>
    ensures row { IfOk result (λ row.
        row ≡ option_map row_of (decision_kept run stage approver.now journal.now.facts)) }
    ensures fits { IfOk result
        (λ _. IfSome (decision_kept run stage approver.now journal.now.facts) IsKept) }
{
    match journal.decision(run, stage, approver) {
        Some(fact) => decided_row(alloc, run, stage, approver, fact),
        None => Ok(None),
    }
}

/// The row of the decision that a fact tells.
fn decided_row(
    alloc: Global,
    run: u64,
    stage: u32,
    approver: &Text,
    fact: &Fact,
) -> Result<Option<Row>, Memory>
    ensures row { IfOk result
        (λ row. row ≡ option_map row_of (decided_kept run stage approver.now fact.now)) }
    ensures fits { IfOk result
        (λ _. IfSome (decided_kept run stage approver.now fact.now) IsKept) }
{
    match verdict_told(&fact.event) {
        Some(approve) => {
            let key = (run, (stage, approver));
            written(alloc, 9, &key, &(approve, fact.moment))
        }
        None => Ok(None),
    }
}
