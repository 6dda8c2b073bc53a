//! Requests once more. What copies share isn't copied.

use crate::call::Call;
use crate::request::{JobName, Request};
use pl_base::{ExactCopy, Memory};
use std::alloc::Global;

impl ExactCopy for JobName {
    fn copy(&self, alloc: Global) -> Result<JobName, Memory> {
        let stage = self.stage.copy(alloc)?;
        let job = self.job.copy(alloc)?;
        Ok(JobName {
            run: self.run,
            stage,
            job,
        })
    }
}

impl ExactCopy for Request {
    fn copy(&self, alloc: Global) -> Result<Request, Memory> {
        match self {
            Request::PutFile(file) => Ok(Request::PutFile(file.copy(alloc)?)),
            Request::RemoveFile(key) => Ok(Request::RemoveFile(key.copy(alloc)?)),
            Request::GetFile(key) => Ok(Request::GetFile(key.copy(alloc)?)),
            Request::SetPipeline(setting) => Ok(Request::SetPipeline(setting.copy(alloc)?)),
            Request::SetResource(setting) => Ok(Request::SetResource(setting.copy(alloc)?)),
            Request::SetPrincipal(setting) => Ok(Request::SetPrincipal(setting.copy(alloc)?)),
            Request::SetAgent(setting) => Ok(Request::SetAgent(setting.copy(alloc)?)),
            Request::QueueText(text) => Ok(Request::QueueText(text.copy(alloc)?)),
            Request::Queue(order) => Ok(Request::Queue(order.copy(alloc)?)),
            Request::ReadRun { run } => Ok(Request::ReadRun { run: *run }),
            Request::Cancel { run } => Ok(Request::Cancel { run: *run }),
            Request::Decide {
                run,
                stage,
                approve,
            } => {
                let stage = stage.copy(alloc)?;
                Ok(Request::Decide {
                    run: *run,
                    stage,
                    approve: *approve,
                })
            }
            Request::Draw => Ok(Request::Draw),
            Request::Claim(job) => Ok(Request::Claim(job.copy(alloc)?)),
            Request::Why { job, agent } => {
                let job = job.copy(alloc)?;
                let agent = agent.copy(alloc)?;
                Ok(Request::Why { job, agent })
            }
            Request::Report { job, report } => {
                let job = job.copy(alloc)?;
                let report = report.copy(alloc)?;
                Ok(Request::Report { job, report })
            }
            Request::Shutdown => Ok(Request::Shutdown),
        }
    }
}

impl ExactCopy for Call {
    fn copy(&self, alloc: Global) -> Result<Call, Memory> {
        let request = self.request.copy(alloc)?;
        Ok(Call {
            moment: self.moment,
            caller: self.caller,
            request,
        })
    }
}
