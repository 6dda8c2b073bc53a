//! The job that a reply gives to an agent.

ghost use Rattle.std.specs.Prelude.{◌≡◌, codes, IfOk};
ghost use Rattle.std.specs.Option.{option_copied};
ghost use Rattle.pl_json.specs.declared.json.Json.{out-Json};
ghost use Rattle.pl_rehearsing.specs.Drawn.{job_among, job_in, job_of, name_of, number_told};
ghost use Rattle.pl_rehearsing.specs.Drawn.{text_told, value_in};

use pl_base::{ExactCopy, Memory, Text};
use pl_json::{Json, Member};
use pl_requests::{Body, JobName};
use std::alloc::Global;

/// What an object has under a name.
fn value_in<'m>(name: &str, members: &'m [Member<Json>]) -> Option<&'m Json>
    ensures { option_copied result ≡ value_in name.now members.now }
{
    match members.iter().find(|one| one.name.as_str() == name) {
        Some(one) => Some(&one.value),
        None => None,
    }
}

fn number_in(name: &str, members: &[Member<Json>]) -> Option<u64>
    ensures { result ≡ number_told (value_in name.now members.now) }
{
    match value_in(name, members) {
        Some(Json::Number(number)) => Some(*number),
        _ => None,
    }
}

fn text_in<'m>(name: &str, members: &'m [Member<Json>]) -> Option<&'m Text>
    ensures { option_copied result ≡ text_told (value_in name.now members.now) }
{
    match value_in(name, members) {
        Some(Json::Text(text)) => Some(text),
        _ => None,
    }
}

fn name_of(
    alloc: Global,
    run: Option<u64>,
    stage: Option<&Text>,
    job: Option<&Text>,
) -> Result<Option<JobName>, Memory>
    ensures { IfOk result (λ named. named ≡
        name_of run (option_copied stage.entry) (option_copied job.entry)) }
{
    match (run, stage, job) {
        (Some(run), Some(stage), Some(job)) => {
            let stage = stage.copy(alloc)?;
            let job = job.copy(alloc)?;
            Ok(Some(JobName { run, stage, job }))
        }
        _ => Ok(None),
    }
}

fn job_among(alloc: Global, members: &[Member<Json>]) -> Result<Option<JobName>, Memory>
    ensures { IfOk result (λ named. named ≡ job_among members.now) }
{
    let run = number_in("run", members);
    let stage = text_in("stage", members);
    let job = text_in("job", members);
    let named = name_of(alloc, run, stage, job)?;
    Ok(named)
}

fn job_of(alloc: Global, value: &Json) -> Result<Option<JobName>, Memory>
    ensures { IfOk result (λ named. named ≡ job_of (out-Json value.now)) }
{
    match value {
        Json::Object(members) => {
            let named = job_among(alloc, members.as_slice())?;
            Ok(named)
        }
        _ => Ok(None),
    }
}

/// The job that an object names: its run by the number, its stage by the name, and it by its label.
pub(crate) fn job_in(alloc: Global, body: &Body) -> Result<Option<JobName>, Memory>
    ensures { IfOk result (λ named. named ≡ job_in body.now) }
{
    match body {
        Body::Json(value) => {
            let named = job_of(alloc, value)?;
            Ok(named)
        }
        _ => Ok(None),
    }
}
