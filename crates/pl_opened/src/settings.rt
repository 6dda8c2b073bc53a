//! Settings as facts of the moment 0.

ghost use Rattle.std.specs.Prelude.{◌≡◌, ◌++◌, ◌∷◌, [], Some, IfOk, OnOk};
ghost use Rattle.pl_keeper.specs.declared.records.Record.TheVariants as kept;
ghost use Rattle.pl_opened.specs.Told as spec;

use pl_base::{Memory, Shared};
use pl_facts::{Event, Fact};
use pl_keeper::{KeptAgent, KeptFile, KeptPipeline, KeptPrincipal, KeptResource};
use pl_requests::{AgentSetting, FileText, PipelineSetting, PrincipalSetting, ResourceSetting};
use std::alloc::Global;

/// Puts a fact of the moment 0 behind the others.
fn push(settings: &mut Vec<Fact>, event: Event) -> Result<(), Memory>
    ensures { OnOk result (settings.new.items ≡ settings.old.items ++ spec.at 0 event ∷ []) }
{
    settings.push(Fact { moment: 0, event })?;
    Ok(())
}

/// Puts the fact of a file behind the others.
pub(crate) fn add_file(
    alloc: Global,
    settings: &mut Vec<Fact>,
    told: KeptFile,
) -> Result<(), Memory>
    ensures { OnOk result (settings.new.items ≡
        settings.old.items ++ spec.setting_facts (kept.File told)) }
{
    let KeptFile { key, text } = told;
    let file = Shared::new(alloc, FileText { key, text })?;
    push(settings, Event::FilePut(file))
}

/// Puts the fact of a pipeline behind the others.
pub(crate) fn add_pipeline(
    alloc: Global,
    settings: &mut Vec<Fact>,
    told: KeptPipeline,
) -> Result<(), Memory>
    ensures { OnOk result (settings.new.items ≡
        settings.old.items ++ spec.setting_facts (kept.Pipeline told)) }
{
    let KeptPipeline { name, repo, path } = told;
    let setting = Shared::new(alloc, PipelineSetting { name, repo, path })?;
    push(settings, Event::PipelineSet(setting))
}

/// Puts the fact of a resource behind the others.
pub(crate) fn add_resource(
    alloc: Global,
    settings: &mut Vec<Fact>,
    told: KeptResource,
) -> Result<(), Memory>
    ensures { OnOk result (settings.new.items ≡
        settings.old.items ++ spec.setting_facts (kept.Resource told)) }
{
    let KeptResource {
        key,
        exclusive,
        pipelines,
        checks,
    } = told;
    let setting = ResourceSetting {
        key,
        pipelines,
        exclusive,
        checks,
    };
    push(settings, Event::ResourceSet(Shared::new(alloc, setting)?))
}

/// Puts the fact of a principal behind the others.
pub(crate) fn add_principal(
    alloc: Global,
    settings: &mut Vec<Fact>,
    told: KeptPrincipal,
) -> Result<(), Memory>
    ensures { OnOk result (settings.new.items ≡
        settings.old.items ++ spec.setting_facts (kept.Principal told)) }
{
    let KeptPrincipal {
        name,
        roles,
        digest,
    } = told;
    let setting = PrincipalSetting {
        name,
        roles,
        digest,
    };
    push(settings, Event::PrincipalSet(Shared::new(alloc, setting)?))
}

/// Puts the fact of an agent behind the others.
pub(crate) fn add_agent(
    alloc: Global,
    settings: &mut Vec<Fact>,
    told: KeptAgent,
) -> Result<(), Memory>
    ensures { OnOk result (settings.new.items ≡
        settings.old.items ++ spec.setting_facts (kept.Agent told)) }
{
    let KeptAgent {
        name,
        pool,
        capabilities,
    } = told;
    let setting = AgentSetting {
        name,
        pool,
        capabilities,
    };
    push(settings, Event::AgentSet(Shared::new(alloc, setting)?))
}
