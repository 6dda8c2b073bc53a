//! Which facts a row tells.

ghost use Rattle.std.specs.Prelude.{◌≡◌, ◌++◌, OnOk};
ghost use Rattle.pl_opened.specs.Told as spec;

use crate::dated::{add_decision, add_job, add_run, add_stage};
use crate::settings::{add_agent, add_file, add_pipeline, add_principal, add_resource};
use pl_base::Memory;
use pl_facts::Fact;
use pl_keeper::Record;
use pl_torn::Seen;
use std::alloc::Global;

/// Puts the facts that a row tells behind the others: a setting behind the settings, and what has a
/// moment behind what has one.
pub(crate) fn add_told(
    alloc: Global,
    settings: &mut Vec<Fact>,
    dated: &mut Vec<Fact>,
    one: Seen<'_>,
) -> Result<(), Memory>
    ensures settings { OnOk result
        (settings.new.items ≡ settings.old.items ++ spec.setting_of one.entry) }
    ensures dated { OnOk result (dated.new.items ≡ dated.old.items ++ spec.dated_of one.entry) }
{
    let Seen { kept, compiled, .. } = one;
    match kept {
        Some(Record::File(told)) => add_file(alloc, settings, told),
        Some(Record::Pipeline(told)) => add_pipeline(alloc, settings, told),
        Some(Record::Resource(told)) => add_resource(alloc, settings, told),
        Some(Record::Principal(told)) => add_principal(alloc, settings, told),
        Some(Record::Agent(told)) => add_agent(alloc, settings, told),
        Some(Record::Run(told)) => add_run(alloc, dated, compiled, told),
        Some(Record::Stage(told)) => add_stage(alloc, dated, told),
        Some(Record::Job(told)) => add_job(alloc, dated, told),
        Some(Record::Decision(told)) => add_decision(alloc, dated, told),
        Some(Record::Meta(_)) | None => Ok(()),
    }
}
