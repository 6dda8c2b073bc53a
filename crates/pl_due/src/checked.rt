//! The resources that a stage uses, as they are set now.

ghost use Rattle.std.specs.Prelude.{◌≡◌, IfOk};
ghost use Rattle.pl_due.specs.Checked as spec;

use pl_base::{ExactCopy, List, Memory, ResourceKey, Text};
use pl_checks::Check;
use pl_facts::QueuedRun;
use pl_journal::Journal;
use pl_plan::PlanStage;
use std::alloc::Global;

/// Whether one stage at a time uses a resource.
fn is_exclusive(journal: &Journal, key: &ResourceKey) -> bool
    ensures { result ≡ spec.is_exclusive journal.now.facts key.now }
{
    match journal.resource(key) {
        Some(setting) => setting.exclusive,
        None => false,
    }
}

/// The exclusive ones of the resources that a stage uses, in its order, as they are set now: one
/// that was never set isn't exclusive. Memory comes where there is none, and nothing else.
pub fn exclusive_uses(
    alloc: Global,
    journal: &Journal,
    planned: &PlanStage,
) -> Result<List<ResourceKey>, Memory>
    ensures { IfOk result (λ keys. keys ≡ spec.exclusive_uses journal.now.facts planned.now) }
{
    let mut keys = List::new(alloc);
    let uses = planned.uses.as_slice();
    for key in uses {
        if is_exclusive(journal, key) {
            keys.push(key.copy(alloc)?)?;
        }
    }
    Ok(keys)
}

/// Whether a name is one of some.
fn is_among(names: &[Text], name: &Text) -> bool
    ensures { result ≡ spec.is_among names.now name.now }
{
    names.iter().any(|one| one.cmp(name).is_eq())
}

/// Whether a pipeline may use a resource, as it is set now: each pipeline may where no list names
/// those that do, and none may where the resource was never set. It takes no memory.
pub fn permits(journal: &Journal, pipeline: &Text, key: &ResourceKey) -> bool
    ensures { result ≡ spec.permits journal.now.facts pipeline.now key.now }
{
    match journal.resource(key) {
        Some(setting) => match &setting.pipelines {
            Some(names) => is_among(names.as_slice(), pipeline),
            None => true,
        },
        None => false,
    }
}

/// Whether a run's pipeline may use all that a stage uses.
pub(crate) fn is_permitted(journal: &Journal, queued: &QueuedRun, planned: &PlanStage) -> bool
    ensures { result ≡ spec.is_permitted journal.now.facts queued.now planned.now }
{
    let uses = planned.uses.as_slice();
    uses.iter()
        .all(|key| permits(journal, &queued.pipeline, key))
}

/// What guards a resource.
pub fn checks_on<'j>(journal: &'j Journal, key: &ResourceKey) -> &'j [Check]
    ensures { result.now ≡ spec.checks_on journal.now.facts key.now }
{
    match journal.resource(key) {
        Some(setting) => setting.checks.as_slice(),
        None => &[],
    }
}

/// Whether nothing guards these resources.
pub(crate) fn are_unguarded(journal: &Journal, uses: &[ResourceKey]) -> bool
    ensures { result ≡ spec.are_unguarded journal.now.facts uses.now }
{
    uses.iter().all(|key| checks_on(journal, key).is_empty())
}
