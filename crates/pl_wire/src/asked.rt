//! What a message asks for.

ghost use Rattle.std.specs.Prelude.{◌≡◌, IfOk};
ghost use Rattle.pl_bodies.specs.Meaning.{Gives};
ghost use Rattle.pl_routes.specs.declared.goal.Goal.TheVariants as goals;
ghost use Rattle.pl_wire.specs.Asked.{asked, job_name, kept, kept_by, said_by};

use crate::message::RequestFault;
use pl_base::{FileKey, List, Memory, ResourceKey, Shared, Text};
use pl_bodies::{
    BodyFault, agent_of, no_content, order_of, pipeline_of, principal_of, report_of, resource_of,
    verdict_of,
};
use pl_requests::{FileText, JobName, Request, is_request};
use pl_routes::{Asking, Goal, JobKey, RouteFault, Routes, StageKey, goal_of};
use std::alloc::Global;

fn put_file(alloc: Global, key: FileKey, content: &[u8]) -> Result<Request, BodyFault>
    ensures { Gives result (said_by (goals.PutFile key) content.now) }
{
    let text = List::from_slice(alloc, content)?;
    let file = Shared::new(alloc, FileText { key, text })?;
    Ok(Request::PutFile(file))
}

fn remove_file(alloc: Global, key: FileKey, content: &[u8]) -> Result<Request, BodyFault>
    ensures { Gives result (said_by (goals.RemoveFile key) content.now) }
{
    no_content(content)?;
    let key = Shared::new(alloc, key)?;
    Ok(Request::RemoveFile(key))
}

fn get_file(alloc: Global, key: FileKey, content: &[u8]) -> Result<Request, BodyFault>
    ensures { Gives result (said_by (goals.GetFile key) content.now) }
{
    no_content(content)?;
    let key = Shared::new(alloc, key)?;
    Ok(Request::GetFile(key))
}

fn set_pipeline(alloc: Global, name: Text, content: &[u8]) -> Result<Request, BodyFault>
    ensures { Gives result (said_by (goals.SetPipeline name) content.now) }
{
    let told = pipeline_of(alloc, name, content)?;
    let told = Shared::new(alloc, told)?;
    Ok(Request::SetPipeline(told))
}

fn set_resource(alloc: Global, key: ResourceKey, content: &[u8]) -> Result<Request, BodyFault>
    ensures { Gives result (said_by (goals.SetResource key) content.now) }
{
    let told = resource_of(alloc, key, content)?;
    let told = Shared::new(alloc, told)?;
    Ok(Request::SetResource(told))
}

fn set_principal(alloc: Global, name: Text, content: &[u8]) -> Result<Request, BodyFault>
    ensures { Gives result (said_by (goals.SetPrincipal name) content.now) }
{
    let told = principal_of(alloc, name, content)?;
    let told = Shared::new(alloc, told)?;
    Ok(Request::SetPrincipal(told))
}

fn set_agent(alloc: Global, name: Text, content: &[u8]) -> Result<Request, BodyFault>
    ensures { Gives result (said_by (goals.SetAgent name) content.now) }
{
    let told = agent_of(alloc, name, content)?;
    let told = Shared::new(alloc, told)?;
    Ok(Request::SetAgent(told))
}

fn queue_text(alloc: Global, content: &[u8]) -> Result<Request, BodyFault>
    ensures { Gives result (said_by goals.QueueText content.now) }
{
    let text = List::from_slice(alloc, content)?;
    let text = Shared::new(alloc, text)?;
    Ok(Request::QueueText(text))
}

fn queue(alloc: Global, content: &[u8]) -> Result<Request, BodyFault>
    ensures { Gives result (said_by goals.QueueRun content.now) }
{
    let order = order_of(alloc, content)?;
    let order = Shared::new(alloc, order)?;
    Ok(Request::Queue(order))
}

fn read_run(run: u64, content: &[u8]) -> Result<Request, BodyFault>
    ensures { Gives result (said_by (goals.ReadRun run) content.now) }
{
    no_content(content)?;
    Ok(Request::ReadRun { run })
}

fn cancel_run(run: u64, content: &[u8]) -> Result<Request, BodyFault>
    ensures { Gives result (said_by (goals.CancelRun run) content.now) }
{
    no_content(content)?;
    Ok(Request::Cancel { run })
}

fn decide(alloc: Global, at: StageKey, content: &[u8]) -> Result<Request, BodyFault>
    ensures { Gives result (said_by (goals.Decide at) content.now) }
{
    let approve = verdict_of(alloc, content)?;
    Ok(Request::Decide {
        run: at.run,
        stage: at.stage,
        approve,
    })
}

fn draw(content: &[u8]) -> Result<Request, BodyFault>
    ensures { Gives result (said_by goals.Draw content.now) }
{
    no_content(content)?;
    Ok(Request::Draw)
}

fn job_name(key: JobKey) -> JobName
    ensures { result ≡ job_name key }
{
    JobName {
        run: key.run,
        stage: key.stage,
        job: key.job,
    }
}

fn claim(job: JobKey, content: &[u8]) -> Result<Request, BodyFault>
    ensures { Gives result (said_by (goals.Claim job) content.now) }
{
    no_content(content)?;
    Ok(Request::Claim(job_name(job)))
}

fn why(asking: Asking, content: &[u8]) -> Result<Request, BodyFault>
    ensures { Gives result (said_by (goals.Why asking) content.now) }
{
    no_content(content)?;
    Ok(Request::Why {
        job: job_name(asking.job),
        agent: asking.agent,
    })
}

fn report(alloc: Global, job: JobKey, content: &[u8]) -> Result<Request, BodyFault>
    ensures { Gives result (said_by (goals.Report job) content.now) }
{
    let report = report_of(alloc, content)?;
    let report = Shared::new(alloc, report)?;
    Ok(Request::Report {
        job: job_name(job),
        report,
    })
}

fn shut_down(content: &[u8]) -> Result<Request, BodyFault>
    ensures { Gives result (said_by goals.Shutdown content.now) }
{
    no_content(content)?;
    Ok(Request::Shutdown)
}

/// The request of a route, by its content.
fn said_by(alloc: Global, goal: Goal, content: &[u8]) -> Result<Request, BodyFault>
    ensures { Gives result (said_by goal content.now) }
{
    match goal {
        Goal::PutFile(key) => put_file(alloc, key, content),
        Goal::RemoveFile(key) => remove_file(alloc, key, content),
        Goal::GetFile(key) => get_file(alloc, key, content),
        Goal::SetPipeline(name) => set_pipeline(alloc, name, content),
        Goal::SetResource(key) => set_resource(alloc, key, content),
        Goal::SetPrincipal(name) => set_principal(alloc, name, content),
        Goal::SetAgent(name) => set_agent(alloc, name, content),
        Goal::QueueText => queue_text(alloc, content),
        Goal::QueueRun => queue(alloc, content),
        Goal::ReadRun(run) => read_run(run, content),
        Goal::CancelRun(run) => cancel_run(run, content),
        Goal::Decide(at) => decide(alloc, at, content),
        Goal::Draw => draw(content),
        Goal::Claim(job) => claim(job, content),
        Goal::Why(asking) => why(asking, content),
        Goal::Report(job) => report(alloc, job, content),
        Goal::Shutdown => shut_down(content),
    }
}

/// The request, where it is within the rules and limits of its fields.
fn kept(alloc: Global, request: Request) -> Result<Request, BodyFault>
    ensures { Gives result (kept request) }
{
    if is_request(alloc, &request)? {
        Ok(request)
    } else {
        Err(BodyFault::Bad)
    }
}

/// The request of a route, by its content, within the rules and limits of its fields.
fn kept_by(alloc: Global, goal: Goal, content: &[u8]) -> Result<Request, BodyFault>
    ensures { Gives result (kept_by goal content.now) }
{
    let request = said_by(alloc, goal, content)?;
    kept(alloc, request)
}

/// The request that a method, a target and a content ask for: the target, then the method, then the
/// content are judged.
#[tactic(auto, unfolding(crate::specs::Asked::asked))]
pub(crate) fn asked(
    alloc: Global,
    routes: &Routes,
    method: &[u8],
    target: &str,
    content: &[u8],
) -> Result<Result<Request, RequestFault>, Memory>
    ensures { IfOk result (λ request. request ≡ asked method.now target.now content.now) }
{
    let goal = match goal_of(alloc, routes, method, target) {
        Ok(goal) => goal,
        Err(RouteFault::RouteUnknown) => return Ok(Err(RequestFault::RouteUnknown)),
        Err(RouteFault::MethodUnknown) => return Ok(Err(RequestFault::MethodUnknown)),
        Err(RouteFault::Memory) => return Err(Memory),
    };
    match kept_by(alloc, goal, content) {
        Ok(request) => Ok(Ok(request)),
        Err(BodyFault::Bad) => Ok(Err(RequestFault::BodyBad)),
        Err(BodyFault::Memory) => Err(Memory),
    }
}
