//! Where a method and a target lead.

ghost use Rattle.std.specs.Prelude.{◌≡◌};
ghost use Rattle.pl_routes.specs.Goals.{goal_at, goal_in, of_file, only};
ghost use Rattle.pl_routes.specs.Parts.{Gives};

use crate::fault::RouteFault;
use crate::route::{Route, method_of};
use crate::table::Routes;
use crate::target::{Asking, JobKey, StageKey, Target, target_of};
use pl_base::{FileKey, ResourceKey, Text};
use std::alloc::Global;

/// What a request asks for, before its content: one variant a route, with the parts of its path.
#[derive(Drop)]
pub enum Goal {
    PutFile(FileKey),
    RemoveFile(FileKey),
    GetFile(FileKey),
    SetPipeline(Text),
    SetResource(ResourceKey),
    SetPrincipal(Text),
    SetAgent(Text),
    QueueText,
    QueueRun,
    ReadRun(u64),
    CancelRun(u64),
    Decide(StageKey),
    Draw,
    Claim(JobKey),
    Why(Asking),
    Report(JobKey),
    Shutdown,
}

/// The goal, where this is the route's method.
fn only(route: Route, method: &[u8], goal: Goal) -> Result<Goal, RouteFault>
    ensures { Gives result (only route method.now goal) }
{
    if method == method_of(route) {
        Ok(goal)
    } else {
        Err(RouteFault::MethodUnknown)
    }
}

/// The goal of a file's path.
fn of_file(method: &[u8], key: FileKey) -> Result<Goal, RouteFault>
    ensures { Gives result (of_file method.now key) }
{
    if method == method_of(Route::PutFile) {
        Ok(Goal::PutFile(key))
    } else if method == method_of(Route::RemoveFile) {
        Ok(Goal::RemoveFile(key))
    } else if method == method_of(Route::GetFile) {
        Ok(Goal::GetFile(key))
    } else {
        Err(RouteFault::MethodUnknown)
    }
}

/// The goal of a path with this method. Methods are compared exactly.
fn goal_at(method: &[u8], target: Target) -> Result<Goal, RouteFault>
    ensures { Gives result (goal_at method.now target) }
{
    match target {
        Target::File(key) => of_file(method, key),
        Target::Pipeline(name) => only(Route::SetPipeline, method, Goal::SetPipeline(name)),
        Target::Resource(key) => only(Route::SetResource, method, Goal::SetResource(key)),
        Target::Principal(name) => only(Route::SetPrincipal, method, Goal::SetPrincipal(name)),
        Target::Agent(name) => only(Route::SetAgent, method, Goal::SetAgent(name)),
        Target::Texts => only(Route::QueueText, method, Goal::QueueText),
        Target::Runs => only(Route::QueueRun, method, Goal::QueueRun),
        Target::Run(run) => only(Route::ReadRun, method, Goal::ReadRun(run)),
        Target::Cancel(run) => only(Route::CancelRun, method, Goal::CancelRun(run)),
        Target::Decision(stage) => only(Route::Decide, method, Goal::Decide(stage)),
        Target::Draw => only(Route::Draw, method, Goal::Draw),
        Target::Claim(job) => only(Route::Claim, method, Goal::Claim(job)),
        Target::Why(asking) => only(Route::Why, method, Goal::Why(asking)),
        Target::Report(job) => only(Route::Report, method, Goal::Report(job)),
        Target::Shutdown => only(Route::Shutdown, method, Goal::Shutdown),
    }
}

/// Where a request goes: the route of the table that its target and its method have, with the parts
/// of the path. The target with its parts is judged before the method: RouteUnknown, then
/// MethodUnknown.
pub fn goal_of(
    alloc: Global,
    routes: &Routes,
    method: &[u8],
    target: &str,
) -> Result<Goal, RouteFault>
    ensures { Gives result (goal_in method.now target.now) }
{
    match routes.place_of(target) {
        Some(place) => {
            let target = target_of(alloc, place, target)?;
            goal_at(method, target)
        }
        None => Err(RouteFault::RouteUnknown),
    }
}
