use crate::settings::{AgentSetting, FileText, PipelineSetting, PrincipalSetting, ResourceSetting};
use pl_base::{Argument, Bytes, FileKey, List, Outcome, Shared, Text};

/// A request to the service: one variant a route, with the route's parts and its body. What may be
/// long is shared by copies.
#[derive(Debug, Drop)]
pub enum Request {
    /// `PUT /files/{repo}/{ref}/{path}`: the file has this text from now on.
    PutFile(Shared<FileText>),
    /// `DELETE /files/{repo}/{ref}/{path}`: the file is no longer there.
    RemoveFile(Shared<FileKey>),
    /// `GET /files/{repo}/{ref}/{path}`: the file's text.
    GetFile(Shared<FileKey>),
    /// `PUT /pipelines/{name}`.
    SetPipeline(Shared<PipelineSetting>),
    /// `PUT /resources/{kind}/{name}`.
    SetResource(Shared<ResourceSetting>),
    /// `PUT /principals/{name}`.
    SetPrincipal(Shared<PrincipalSetting>),
    /// `PUT /agents/{name}`.
    SetAgent(Shared<AgentSetting>),
    /// `POST /texts`: a run of the pipeline that this text is.
    QueueText(Shared<Bytes>),
    /// `POST /runs`: a run of a pipeline.
    Queue(Shared<Order>),
    /// `GET /runs/{n}`: how the run stands.
    ReadRun {
        run: u64,
    },
    /// `POST /runs/{n}/cancel`: the run is to end.
    Cancel {
        run: u64,
    },
    /// `POST /runs/{n}/stages/{s}/decision`: the caller approves the stage, or rejects it.
    Decide {
        run: u64,
        stage: Text,
        approve: bool,
    },
    /// `POST /draw`: the job that the calling agent holds, or a job for it.
    Draw,
    /// `POST /runs/{n}/stages/{s}/jobs/{j}/claim`: this job for the calling agent.
    Claim(JobName),
    /// `GET /runs/{n}/stages/{s}/jobs/{j}/why/{agent}`: why the agent can't have this job.
    Why {
        job: JobName,
        agent: Text,
    },
    /// `POST /runs/{n}/stages/{s}/jobs/{j}/report`: how the calling agent's job ended.
    Report {
        job: JobName,
        report: Shared<Report>,
    },
    /// `POST /shutdown`: the service is to stop.
    Shutdown,
}

/// A job as requests name it: its run's number, its stage's name, and its label.
#[derive(Debug, Drop)]
pub struct JobName {
    pub run: u64,
    pub stage: Text,
    pub job: Text,
}

/// What is to be queued: a pipeline by its name, the ref under which its file is read, and texts
/// for its parameters, in byte order of their names.
#[derive(Debug, Drop)]
pub struct Order {
    pub pipeline: Text,
    pub git_ref: Text,
    pub arguments: List<Argument>,
}

/// How an agent says that its job ended: the result, and the outputs by their keys, in byte order
/// of the keys (Microsoft Learn, Azure Pipelines, "Set variables in scripts", output variables).
#[derive(Debug, Drop)]
pub struct Report {
    pub outcome: Outcome,
    pub outputs: List<(Text, Text)>,
}
