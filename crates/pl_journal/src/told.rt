//! What one fact tells.

ghost use Rattle.std.specs.Prelude.{◌≡◌};
ghost use Rattle.std.specs.Option.{option_copied};
ghost use Rattle.pl_journal.specs.Runs as runs;
ghost use Rattle.pl_journal.specs.Settings as settings;

use pl_base::{Bytes, List, Outcome, Shared, Text};
use pl_facts::{
    AgentSetting, Event, FileText, PipelineSetting, PrincipalSetting, QueuedRun, ResourceSetting,
    Rule,
};

/// The file that was put.
pub(crate) fn file_told(event: &Event) -> Option<&Shared<FileText>>
    ensures { option_copied result ≡ settings.file_told event.now }
{
    match event {
        Event::FilePut(file) => Some(file),
        _ => None,
    }
}

/// The text of a file that was put.
pub(crate) fn text_told(event: &Event) -> Option<&Bytes>
    ensures { option_copied result ≡ settings.text_told event.now }
{
    match event {
        Event::FilePut(file) => Some(&file.text),
        _ => None,
    }
}

/// The pipeline that was set.
pub(crate) fn pipeline_told(event: &Event) -> Option<&PipelineSetting>
    ensures { option_copied result ≡ settings.pipeline_told event.now }
{
    match event {
        Event::PipelineSet(setting) => Some(setting),
        _ => None,
    }
}

/// The resource that was set.
pub(crate) fn resource_told(event: &Event) -> Option<&ResourceSetting>
    ensures { option_copied result ≡ settings.resource_told event.now }
{
    match event {
        Event::ResourceSet(setting) => Some(setting),
        _ => None,
    }
}

/// The principal that was set.
pub(crate) fn principal_told(event: &Event) -> Option<&PrincipalSetting>
    ensures { option_copied result ≡ settings.principal_told event.now }
{
    match event {
        Event::PrincipalSet(setting) => Some(setting),
        _ => None,
    }
}

/// The agent that was set.
pub(crate) fn agent_told(event: &Event) -> Option<&AgentSetting>
    ensures { option_copied result ≡ settings.agent_told event.now }
{
    match event {
        Event::AgentSet(setting) => Some(setting),
        _ => None,
    }
}

/// The run that was queued.
pub(crate) fn run_told(event: &Event) -> Option<&QueuedRun>
    ensures { option_copied result ≡ runs.run_told event.now }
{
    match event {
        Event::RunQueued(queued) => Some(queued),
        _ => None,
    }
}

/// Whether a stage was approved.
pub fn verdict_told(event: &Event) -> Option<bool>
    ensures { result ≡ runs.verdict_told event.now }
{
    match event {
        Event::DecisionMade { approve, .. } => Some(*approve),
        _ => None,
    }
}

/// How a stage or a job ended.
pub fn outcome_told(event: &Event) -> Option<Outcome>
    ensures { result ≡ runs.outcome_told event.now }
{
    match event {
        Event::StageEnded { outcome, .. } => Some(*outcome),
        Event::JobEnded { outcome, .. } => Some(*outcome),
        _ => None,
    }
}

/// The rule that ended a stage or a job, if one did.
pub fn rule_told(event: &Event) -> Option<&Rule>
    ensures { option_copied result ≡ runs.rule_told event.now }
{
    match event {
        Event::StageEnded {
            rule: Some(rule),
            ..
        } => Some(rule),
        Event::JobEnded {
            rule: Some(rule),
            ..
        } => Some(rule),
        _ => None,
    }
}

/// The outputs of a job that ended.
pub fn outputs_told(event: &Event) -> Option<&Shared<List<(Text, Text)>>>
    ensures { option_copied result ≡ runs.outputs_told event.now }
{
    match event {
        Event::JobEnded { outputs, .. } => Some(outputs),
        _ => None,
    }
}

/// Who took a job.
pub fn taker_told(event: &Event) -> Option<&Text>
    ensures { option_copied result ≡ runs.taker_told event.now }
{
    match event {
        Event::JobTaken { agent, .. } => Some(agent),
        _ => None,
    }
}
