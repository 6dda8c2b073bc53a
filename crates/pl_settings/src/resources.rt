//! Resources.

ghost use Rattle.std.specs.Prelude.{◌≡◌, IfOk};
ghost use Rattle.pl_settings.specs.Settings as spec;

use crate::running::running_on;
use pl_answers::{Answer, empty_object};
use pl_base::{ExactCopy, List, Memory, Shared};
use pl_facts::Event;
use pl_open_runs::IndexedJournal;
use pl_requests::{ResourceSetting, Rule};
use std::alloc::Global;

/// The rule by which a resource can't become exclusive now: two stages are running on it.
fn busy(
    alloc: Global,
    journal: &IndexedJournal,
    told: &ResourceSetting,
) -> Result<Option<Rule>, Memory>
    ensures { IfOk result (λ rule. rule ≡ spec.busy journal.now.facts told.now) }
{
    if !told.exclusive {
        return Ok(None);
    }
    let mut running = running_on(alloc, journal, &told.key)?.into_vec();
    if running.len() < 2 {
        return Ok(None);
    }
    running.truncate(2);
    let stages = List::from_vec(running);
    Ok(Some(Rule::ResourceBusy { stages }))
}

/// What `PUT /resources/{kind}/{name}` is answered: 200 `{}`, and these pipelines may use the
/// resource, one stage at a time where it is exclusive, guarded by these checks, from then on. 409
/// `resource.busy` where it is to be exclusive and two stages are running on it: the first two, by
/// run and then by place (Microsoft Learn, Azure Pipelines, "Pipeline permissions", "Define
/// approvals and checks", Exclusive lock). Memory where memory is wanting.
pub fn set_resource(
    alloc: Global,
    journal: &IndexedJournal,
    told: &Shared<ResourceSetting>,
) -> Result<Answer, Memory>
    ensures { IfOk result (λ answer. answer ≡ spec.set_resource journal.now told.now) }
{
    if let Some(rule) = busy(alloc, journal, told)? {
        return Answer::refusal(alloc, 409, &rule);
    }
    let event = Event::ResourceSet(told.copy(alloc)?);
    Ok(Answer::with_fact(empty_object(alloc), event))
}
