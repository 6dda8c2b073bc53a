//! What is due for stages by themselves.

ghost use Rattle.pl_due.specs.Kinds as spec;

use crate::ends::false_stage_end;
use crate::nodes::{has_done_all, is_canceled, is_running, is_waiting, outcomes, stage_says};
use crate::scanning::Kind;
use crate::stage_at::StageAt;
use pl_base::Memory;
use pl_facts::Event;
use pl_results::combined;
use std::alloc::Global;

/// Running stages whose jobs have all ended.
#[derive(Clone, Copy)]
pub struct Done;

impl Kind for Done {
    ghost of = { λ itself facts moment. spec.IsDone facts };

    fn in_stage(&self, alloc: Global, at: &StageAt<'_>) -> Result<Option<Event>, Memory> {
        if !is_running(at.journal, at.run, at.stage) {
            return Ok(None);
        }
        if !has_done_all(at) {
            return Ok(None);
        }
        let outcomes = outcomes(alloc, at)?;
        Ok(Some(Event::StageEnded {
            run: at.run,
            stage: at.stage,
            outcome: combined(outcomes.as_slice()),
            rule: None,
        }))
    }
}

/// Waiting stages whose condition is false.
#[derive(Clone, Copy)]
pub struct FalseStages;

impl Kind for FalseStages {
    ghost of = { λ itself facts moment. spec.IsPassedOver facts };

    fn in_stage(&self, alloc: Global, at: &StageAt<'_>) -> Result<Option<Event>, Memory> {
        if !is_waiting(at) {
            return Ok(None);
        }
        if stage_says(alloc, at)? {
            return Ok(None);
        }
        let canceled = is_canceled(at.journal, at.run);
        Ok(Some(false_stage_end(alloc, canceled, at.run, at.stage)?))
    }
}
