//! The sizes of facts.

ghost use Rattle.std.specs.Prelude.{◌≡◌};
ghost use Rattle.pl_facts.specs.Sizes.{busy_size, event_size, fact_size, refusal_size, rule_size};
ghost use Rattle.pl_facts.specs.Sizes.{run_size, source_size, sources_size};

use crate::fact::{Event, Fact, QueuedRun};
use crate::sizes::counted::Counted;
use crate::sizes::requests::bytes_size;
use pl_base::{Bytes, FileKey, Refusal, Text};
use pl_plan::Sources;
use pl_requests::Rule;

impl Counted for (u64, Text) {
    ghost bytes = { busy_size };

    fn size(&self) -> u64 {
        self.1.size()
    }
}

impl Counted for Refusal {
    ghost bytes = { refusal_size };

    fn size(&self) -> u64 {
        let rest = self.place.file.size().saturating_add(self.detail.size());
        self.code.size().saturating_add(rest)
    }
}

impl Counted for Rule {
    ghost bytes = { rule_size };

    fn size(&self) -> u64 {
        match self {
            Rule::JobEnded { by, .. } => by.size(),
            Rule::JobTaken { agent } => agent.size(),
            Rule::AgentBusy { stage, job, .. } => stage.size().saturating_add(job.size()),
            Rule::PoolMismatch { have, need } => have.size().saturating_add(need.size()),
            Rule::CapabilityMissing { name } => name.size(),
            Rule::StageDepends { stage } => stage.size(),
            Rule::PermissionMissing { resource } => resource.name.size(),
            Rule::LockHeld { stage, .. } => stage.size(),
            Rule::LockBehind { stage, .. } => stage.size(),
            Rule::JobDepends { job } => job.size(),
            Rule::TemplateArgument { job, .. } => job.size(),
            Rule::BranchRefused { git_ref } => git_ref.size(),
            Rule::ApprovalRejected { approver } => approver.size(),
            Rule::ReportStranger { agent } => agent.size(),
            Rule::ResourceBusy { stages } => stages.size(),
            Rule::TokenTaken { name } => name.size(),
            Rule::ResourceUnknown { resource } => resource.name.size(),
            Rule::CompileRefused { refusal } => refusal.size(),
            _ => 0,
        }
    }
}

impl Counted for (FileKey, Bytes) {
    ghost bytes = { source_size };

    fn size(&self) -> u64 {
        self.0.size().saturating_add(bytes_size(&self.1))
    }
}

impl Counted for Sources {
    ghost bytes = { sources_size };

    fn size(&self) -> u64 {
        let rest = self.arguments.size().saturating_add(self.files.size());
        self.root.size().saturating_add(rest)
    }
}

impl Counted for QueuedRun {
    ghost bytes = { run_size };

    fn size(&self) -> u64 {
        let rest = self
            .requester
            .size()
            .saturating_add(self.compiled.sources.size());
        self.pipeline.size().saturating_add(rest)
    }
}

impl Counted for Event {
    ghost bytes = { event_size };

    fn size(&self) -> u64 {
        match self {
            Event::FilePut(file) => file.size(),
            Event::FileRemoved(key) => key.size(),
            Event::PipelineSet(told) => told.size(),
            Event::ResourceSet(told) => told.size(),
            Event::PrincipalSet(told) => told.name.size(),
            Event::AgentSet(told) => told.size(),
            Event::RunQueued(told) => told.size(),
            Event::DecisionMade { approver, .. } => approver.size(),
            Event::StageStarted { .. } => 0,
            Event::StageEnded { rule, .. } => rule.size(),
            Event::JobTaken { agent, .. } => agent.size(),
            Event::JobEnded { rule, outputs, .. } => { rule.size().saturating_add(outputs.size()) }
            Event::RunCanceled { .. } => 0,
        }
    }
}

impl Counted for Fact {
    ghost bytes = { fact_size };

    fn size(&self) -> u64 {
        self.event.size()
    }
}
