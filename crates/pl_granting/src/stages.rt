//! What a job's stage waits for, as rules.

ghost use Rattle.std.specs.Prelude.{◌≡◌, IfOk};
ghost use Rattle.pl_granting.specs.Asked.{of};
ghost use Rattle.pl_granting.specs.Rules as spec;

use crate::job_at::JobAt;
use pl_base::{ExactCopy, Memory, Text};
use pl_due::permits;
use pl_facts::Rule;
use pl_journal::Journal;
use pl_plan::PlanStage;
use pl_views::awaited_stage;
use std::alloc::Global;

/// The name of the stage at a place.
fn stage_name(alloc: Global, stages: &[PlanStage], place: u32) -> Result<Text, Memory>
    ensures { IfOk result (λ name. name ≡ spec.stage_name stages.now place) }
{
    match stages.get(place as usize) {
        Some(one) => one.name.copy(alloc),
        None => Ok(Text::new(alloc)),
    }
}

/// `stage.depends`: the first stage that a job's stage waits for.
pub(crate) fn stage_waits(
    alloc: Global,
    journal: &Journal,
    at: &JobAt<'_>,
) -> Result<Option<Rule>, Memory>
    ensures { IfOk result (λ rule. rule ≡ spec.stage_waits journal.now.facts (of at.now)) }
{
    match awaited_stage(journal, at.run, at.staged) {
        Some(place) => Ok(Some(Rule::StageDepends {
            stage: stage_name(alloc, at.queued.compiled.plan.stages.as_slice(), place)?,
        })),
        None => Ok(None),
    }
}

/// Whether a job's stage was started.
pub(crate) fn is_started(journal: &Journal, at: &JobAt<'_>) -> bool
    ensures { result ≡ spec.is_started journal.now.facts (of at.now) }
{
    journal.stage_start(at.run, at.stage).is_some()
}

/// `permission.missing`: the first use of a job's stage that its pipeline may not have.
pub(crate) fn unpermitted(
    alloc: Global,
    journal: &Journal,
    at: &JobAt<'_>,
) -> Result<Option<Rule>, Memory>
    ensures { IfOk result (λ rule. rule ≡ spec.unpermitted journal.now.facts (of at.now)) }
{
    let uses = at.staged.uses.as_slice();
    let pipeline = &at.queued.pipeline;
    match uses.iter().find(|key| !permits(journal, pipeline, key)) {
        Some(key) => Ok(Some(Rule::PermissionMissing {
            resource: key.copy(alloc)?,
        })),
        None => Ok(None),
    }
}
