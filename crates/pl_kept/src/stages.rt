//! Rows of stages.

ghost use Rattle.std.specs.Prelude.{◌≡◌, IfOk, IfSome};
ghost use Rattle.std.specs.Option.{option_copied, option_map};
ghost use Rattle.pl_keeper.specs.Rows.{row_of, IsKept};
ghost use Rattle.pl_kept.specs.Kept.{stage_kept};
ghost use Rattle.pl_kept.specs.Told.{moment_of};

use crate::ends::stage_end_of;
use crate::planned::planned_stage;
use crate::written::written;
use pl_base::{Memory, Moment, Row};
use pl_facts::Fact;
use pl_journal::Journal;
use std::alloc::Global;

/// The row of a stage, or None where no run has it.
pub fn stage_row(
    alloc: Global,
    journal: &Journal,
    run: u64,
    stage: u32,
) -> Result<Option<Row>, Memory>
    ensures row { IfOk result
        (λ row. row ≡ option_map row_of (stage_kept run stage journal.now.facts)) }
    ensures fits { IfOk result (λ _. IfSome (stage_kept run stage journal.now.facts) IsKept) }
{
    match planned_stage(journal, run, stage) {
        Some(_) => {
            let started = moment_of(journal.stage_start(run, stage));
            let ended = stage_end_of(journal.stage_end(run, stage));
            written(alloc, 7, &(run, stage), &(started, ended))
        }
        None => Ok(None),
    }
}

/// When a fact was, if there is one.
pub(crate) fn moment_of(fact: Option<&Fact>) -> Option<Moment>
    ensures { result ≡ option_map moment_of (option_copied fact.entry) }
{
    match fact {
        Some(fact) => Some(fact.moment),
        None => None,
    }
}
