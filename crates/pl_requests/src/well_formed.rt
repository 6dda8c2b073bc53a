//! Which calls are well-formed.

ghost use Rattle.std.specs.Prelude.{◌≡◌, map, IfOk};
ghost use Rattle.std.specs.List.{list_all};
ghost use Rattle.pl_names.specs.Names.{is_name};
ghost use Rattle.pl_json.specs.Members.{ascends, is_in_order};
ghost use Rattle.pl_requests.specs.WellFormed.{are_arguments, is_job_name, is_order, is_report};
ghost use Rattle.pl_requests.specs.WellFormed.{is_request, is_well_formed};
ghost use Rattle.pl_requests.specs.declared.request.Request.TheVariants.{SetAgent, SetPipeline};
ghost use Rattle.pl_requests.specs.declared.request.Request.TheVariants.{SetPrincipal, SetResource};

use crate::call::Call;
use crate::request::{JobName, Order, Report, Request};
use crate::settings::{AgentSetting, PipelineSetting, PrincipalSetting, ResourceSetting};
use pl_base::{Argument, LAST_MOMENT, List, Memory, Outcome, Text};
use pl_digests::is_of_nothing;
use pl_limits::{are_capabilities, are_checks, are_outputs, is_file_text, is_run, may_be_granted};
use pl_names::{is_key, is_label, is_name, is_path, is_ref, is_repository};
use std::alloc::Global;
use std::cmp::Ordering;

/// Whether a call is well-formed: its moment is at most 2099-12-31T23:59:59Z, and its request's
/// parts and body are what `is_request` wants. Memory where memory is wanting.
pub fn is_well_formed(alloc: Global, call: &Call) -> Result<bool, Memory>
    ensures { IfOk result (λ is. is ≡ is_well_formed call.now) }
{
    if call.moment > LAST_MOMENT {
        return Ok(false);
    }
    is_request(alloc, &call.request)
}

/// Whether a request's parts and body are what its route wants: names, keys of files, refs, paths,
/// labels, numbers of runs, texts, checks and outputs within their limits; what stands by names in
/// byte order, each once; a result other than Skipped; and no principal with the digest of no
/// bytes. Memory where memory is wanting: an approval's approvers are told apart in a set.
pub fn is_request(alloc: Global, request: &Request) -> Result<bool, Memory>
    ensures { IfOk result (λ is. is ≡ is_request request.now) }
{
    match request {
        Request::PutFile(file) => Ok(is_key(&file.key) && is_file_text(&file.text)),
        Request::RemoveFile(key) => Ok(is_key(key)),
        Request::GetFile(key) => Ok(is_key(key)),
        Request::SetPipeline(told) => Ok(is_pipeline(told)),
        Request::SetResource(told) => is_resource(alloc, told),
        Request::SetPrincipal(told) => Ok(is_principal(told)),
        Request::SetAgent(told) => Ok(is_agent(told)),
        Request::QueueText(text) => Ok(is_file_text(text)),
        Request::Queue(order) => Ok(is_order(order)),
        Request::ReadRun { run } => Ok(is_run(*run)),
        Request::Cancel { run } => Ok(is_run(*run)),
        Request::Decide { run, stage, .. } => Ok(is_run(*run) && is_name(stage.as_str())),
        Request::Draw => Ok(true),
        Request::Claim(job) => Ok(is_job_name(job)),
        Request::Why { job, agent } => Ok(is_job_name(job) && is_name(agent.as_str())),
        Request::Report { job, report } => Ok(is_job_name(job) && is_report(report)),
        Request::Shutdown => Ok(true),
    }
}

fn is_pipeline(told: &PipelineSetting) -> bool
    ensures { result ≡ is_request (SetPipeline told.now) }
{
    is_name(told.name.as_str()) && is_repository(told.repo.as_str()) && is_path(told.path.as_str())
}

fn is_resource(alloc: Global, told: &ResourceSetting) -> Result<bool, Memory>
    ensures { IfOk result (λ is. is ≡ is_request (SetResource told.now)) }
{
    let guarded = are_checks(alloc, &told.checks)?;
    Ok(is_name(told.key.name.as_str()) && may_be_granted(&told.pipelines) && guarded)
}

fn is_principal(told: &PrincipalSetting) -> bool
    ensures { result ≡ is_request (SetPrincipal told.now) }
{
    is_name(told.name.as_str()) && !is_of_nothing(&told.digest)
}

fn is_agent(told: &AgentSetting) -> bool
    ensures { result ≡ is_request (SetAgent told.now) }
{
    is_name(told.name.as_str())
        && is_name(told.pool.as_str())
        && are_capabilities(&told.capabilities)
}

fn is_job_name(told: &JobName) -> bool
    ensures { result ≡ is_job_name told.now }
{
    is_run(told.run) && is_name(told.stage.as_str()) && is_label(told.job.as_str())
}

fn is_order(told: &Order) -> bool
    ensures { result ≡ is_order told.now }
{
    is_name(told.pipeline.as_str())
        && is_ref(told.git_ref.as_str())
        && are_arguments(&told.arguments)
}

/// Whether arguments have names that ascend in byte order.
fn are_arguments(told: &List<Argument>) -> bool
    ensures { result ≡ are_arguments told.now }
{
    have_names(told) && are_in_order(told.as_slice())
}

fn have_names(told: &List<Argument>) -> bool
    ensures { result ≡ list_all (λ one. is_name one.name) told.now }
{
    told.as_slice().iter().all(|one| is_name(one.name.as_str()))
}

/// Whether each argument's name stands before the next one's.
fn are_in_order(told: &[Argument]) -> bool
    ensures { result ≡ is_in_order (map (λ one. one.name) told.now) }
{
    match told {
        [] => true,
        [first, rest @ ..] => arguments_ascend(&first.name, rest),
    }
}

/// Whether each name stands before the next one's, from this one on.
fn arguments_ascend(first: &Text, rest: &[Argument]) -> bool
    ensures { result ≡ ascends first.now (map (λ one. one.name) rest.now) }
{
    let mut last = first;
    for one in rest {
        match last.cmp(&one.name) {
            Ordering::Less => last = &one.name,
            _ => return false,
        }
    }
    true
}

fn is_report(told: &Report) -> bool
    ensures { result ≡ is_report told.now }
{
    !matches!(told.outcome, Outcome::Skipped)
        && are_outputs(&told.outputs)
        && keys_in_order(told.outputs.as_slice())
}

/// Whether each output's key stands before the next one's.
fn keys_in_order(told: &[(Text, Text)]) -> bool
    ensures { result ≡ is_in_order (map (λ one. one.0) told.now) }
{
    match told {
        [] => true,
        [first, rest @ ..] => keys_ascend(&first.0, rest),
    }
}

/// Whether each key stands before the next one, from this one on.
fn keys_ascend(first: &Text, rest: &[(Text, Text)]) -> bool
    ensures { result ≡ ascends first.now (map (λ one. one.0) rest.now) }
{
    let mut last = first;
    for one in rest {
        match last.cmp(&one.0) {
            Ordering::Less => last = &one.0,
            _ => return false,
        }
    }
    true
}
