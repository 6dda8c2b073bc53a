//! The sizes of requests.

ghost use Rattle.std.specs.Prelude.{◌≡◌, length};
ghost use Rattle.pl_facts.specs.Sizes.{agent_size, argument_size, check_size, counted, file_size};
ghost use Rattle.pl_facts.specs.Sizes.{job_name_size, key_size, order_size, pipeline_size};
ghost use Rattle.pl_facts.specs.Sizes.{request_size, resource_size};

use crate::sizes::counted::Counted;
use pl_base::{Argument, Bytes, FileKey};
use pl_requests::{
    AgentSetting, Check, FileText, JobName, Order, PipelineSetting, Request, ResourceSetting,
};

/// How many bytes there are.
pub(crate) fn bytes_size(bytes: &Bytes) -> u64
    ensures { result ≡ counted (length bytes.now) }
{
    bytes.len() as u64
}

impl Counted for FileKey {
    ghost bytes = { key_size };

    fn size(&self) -> u64 {
        let rest = self.git_ref.size().saturating_add(self.path.size());
        self.repo.size().saturating_add(rest)
    }
}

impl Counted for FileText {
    ghost bytes = { file_size };

    fn size(&self) -> u64 {
        self.key.size().saturating_add(bytes_size(&self.text))
    }
}

impl Counted for Argument {
    ghost bytes = { argument_size };

    fn size(&self) -> u64 {
        self.name.size().saturating_add(self.text.size())
    }
}

impl Counted for Check {
    ghost bytes = { check_size };

    fn size(&self) -> u64 {
        match self {
            Check::RequiredTemplate(told) => told.templates.size(),
            Check::Branch(told) => told.patterns.size(),
            Check::Approval(told) => told.approvers.size(),
            Check::Hours(told) => told.zone.text().size(),
        }
    }
}

impl Counted for PipelineSetting {
    ghost bytes = { pipeline_size };

    fn size(&self) -> u64 {
        let rest = self.repo.size().saturating_add(self.path.size());
        self.name.size().saturating_add(rest)
    }
}

impl Counted for ResourceSetting {
    ghost bytes = { resource_size };

    fn size(&self) -> u64 {
        let rest = self.pipelines.size().saturating_add(self.checks.size());
        self.key.name.size().saturating_add(rest)
    }
}

impl Counted for AgentSetting {
    ghost bytes = { agent_size };

    fn size(&self) -> u64 {
        let rest = self.pool.size().saturating_add(self.capabilities.size());
        self.name.size().saturating_add(rest)
    }
}

impl Counted for JobName {
    ghost bytes = { job_name_size };

    fn size(&self) -> u64 {
        self.stage.size().saturating_add(self.job.size())
    }
}

impl Counted for Order {
    ghost bytes = { order_size };

    fn size(&self) -> u64 {
        let rest = self.git_ref.size().saturating_add(self.arguments.size());
        self.pipeline.size().saturating_add(rest)
    }
}

impl Counted for Request {
    ghost bytes = { request_size };

    fn size(&self) -> u64 {
        match self {
            Request::PutFile(file) => file.size(),
            Request::RemoveFile(key) => key.size(),
            Request::GetFile(key) => key.size(),
            Request::SetPipeline(told) => told.size(),
            Request::SetResource(told) => told.size(),
            Request::SetPrincipal(told) => told.name.size(),
            Request::SetAgent(told) => told.size(),
            Request::QueueText(text) => bytes_size(text),
            Request::Queue(order) => order.size(),
            Request::ReadRun { .. } => 0,
            Request::Cancel { .. } => 0,
            Request::Decide { stage, .. } => stage.size(),
            Request::Draw => 0,
            Request::Claim(job) => job.size(),
            Request::Why { job, agent } => job.size().saturating_add(agent.size()),
            Request::Report { job, report } => { job.size().saturating_add(report.outputs.size()) }
            Request::Shutdown => 0,
        }
    }
}
