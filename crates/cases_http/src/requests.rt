//! Requests as the cases write them.

use crate::answers::Answers;
use crate::checks::put_key;
use crate::settings::{
    put_agent, put_order, put_pipeline, put_principal, put_report, put_resource,
};
use crate::written::{put_count, put_text, put_word};
use pl_base::{FileKey, Text};
use pl_requests::{FileText, JobName, Request};
use std::alloc::Global;

pub fn put_job(alloc: Global, out: &mut Answers, job: &JobName) {
    put_count(alloc, out, job.run);
    put_text(alloc, out, job.stage.as_str());
    put_text(alloc, out, job.job.as_str())
}

fn put_file(alloc: Global, out: &mut Answers, file: &FileText) {
    out.push("PutFile");
    put_key(alloc, out, &file.key);
    put_count(alloc, out, file.text.len() as u64);
    put_word(out, "bytes")
}

fn put_named(alloc: Global, out: &mut Answers, word: &str, key: &FileKey) {
    out.push(word);
    put_key(alloc, out, key)
}

fn put_numbered(alloc: Global, out: &mut Answers, word: &str, number: u64) {
    out.push(word);
    put_count(alloc, out, number)
}

fn put_decision(alloc: Global, out: &mut Answers, run: u64, stage: &Text, approve: bool) {
    put_numbered(alloc, out, "Decide", run);
    put_text(alloc, out, stage.as_str());
    put_word(out, if approve { "approve" } else { "reject" })
}

fn put_setting(alloc: Global, out: &mut Answers, request: &Request) {
    match request {
        Request::SetPipeline(told) => {
            out.push("SetPipeline");
            put_pipeline(alloc, out, told)
        }
        Request::SetResource(told) => {
            out.push("SetResource");
            put_resource(alloc, out, told)
        }
        Request::SetPrincipal(told) => {
            out.push("SetPrincipal");
            put_principal(alloc, out, told)
        }
        Request::SetAgent(told) => {
            out.push("SetAgent");
            put_agent(alloc, out, told)
        }
        Request::Queue(told) => {
            out.push("Queue");
            put_order(alloc, out, told)
        }
        _ => out.push("?"),
    }
}

fn put_job_request(alloc: Global, out: &mut Answers, request: &Request) {
    match request {
        Request::Claim(job) => {
            out.push("Claim");
            put_job(alloc, out, job)
        }
        Request::Why { job, agent } => {
            out.push("Why");
            put_job(alloc, out, job);
            put_text(alloc, out, agent.as_str())
        }
        Request::Report { job, report } => {
            out.push("Report");
            put_job(alloc, out, job);
            put_report(alloc, out, report)
        }
        _ => put_setting(alloc, out, request),
    }
}

/// Writes a request.
pub fn put_request(alloc: Global, out: &mut Answers, request: &Request) {
    match request {
        Request::PutFile(file) => put_file(alloc, out, file),
        Request::RemoveFile(key) => put_named(alloc, out, "RemoveFile", key),
        Request::GetFile(key) => put_named(alloc, out, "GetFile", key),
        Request::QueueText(text) => {
            put_numbered(alloc, out, "QueueText", text.len() as u64);
            put_word(out, "bytes")
        }
        Request::ReadRun { run } => put_numbered(alloc, out, "ReadRun", *run),
        Request::Cancel { run } => put_numbered(alloc, out, "Cancel", *run),
        Request::Decide {
            run,
            stage,
            approve,
        } => put_decision(alloc, out, *run, stage, *approve),
        Request::Draw => out.push("Draw"),
        Request::Shutdown => out.push("Shutdown"),
        _ => put_job_request(alloc, out, request),
    }
}
