//! What a path names.

ghost use Rattle.std.specs.Prelude.{◌≡◌, map};
ghost use Rattle.pl_routes.specs.Parts.{Gives, said_at};
ghost use Rattle.pl_routes.specs.Targets.{decision_in, file_in, job_in, kind_at, label_at, name_at};
ghost use Rattle.pl_routes.specs.Targets.{named_at, path_at, ref_at, repository_at, resource_in};
ghost use Rattle.pl_routes.specs.Targets.{run_at, target_at, why_in};

use crate::fault::RouteFault;
use crate::parts::{decoded, parts_of};
use crate::place::Place;
use crate::rules::{kind_of, run_number};
use pl_base::{FileKey, Kind, ResourceKey, Text};
use pl_names::{is_label, is_name, is_path, is_ref, is_repository};
use std::alloc::Global;

/// A stage of a run, by its name.
#[derive(Drop)]
pub struct StageKey {
    pub run: u64,
    pub stage: Text,
}

/// A job of a stage, by its label.
#[derive(Drop)]
pub struct JobKey {
    pub run: u64,
    pub stage: Text,
    pub job: Text,
}

/// A job, and the agent of whom it is asked why it may not have it.
#[derive(Drop)]
pub struct Asking {
    pub job: JobKey,
    pub agent: Text,
}

/// What a path of the table names: one variant a path, with its parts.
#[derive(Drop)]
pub enum Target {
    File(FileKey),
    Pipeline(Text),
    Resource(ResourceKey),
    Principal(Text),
    Agent(Text),
    Texts,
    Runs,
    Run(u64),
    Cancel(u64),
    Decision(StageKey),
    Draw,
    Claim(JobKey),
    Why(Asking),
    Report(JobKey),
    Shutdown,
}

/// What the part at a place from 0 says.
fn said_at(alloc: Global, parts: &[&str], at: usize) -> Result<Text, RouteFault>
    ensures { Gives result (said_at at (map (λ part. part.now) parts.now)) }
{
    match parts.get(at) {
        Some(part) => decoded(alloc, *part),
        None => Err(RouteFault::RouteUnknown),
    }
}

fn repository_at(alloc: Global, parts: &[&str], at: usize) -> Result<Text, RouteFault>
    ensures { Gives result (repository_at at (map (λ part. part.now) parts.now)) }
{
    let text = said_at(alloc, parts, at)?;
    if is_repository(text.as_str()) {
        Ok(text)
    } else {
        Err(RouteFault::RouteUnknown)
    }
}

fn ref_at(alloc: Global, parts: &[&str], at: usize) -> Result<Text, RouteFault>
    ensures { Gives result (ref_at at (map (λ part. part.now) parts.now)) }
{
    let text = said_at(alloc, parts, at)?;
    if is_ref(text.as_str()) {
        Ok(text)
    } else {
        Err(RouteFault::RouteUnknown)
    }
}

fn path_at(alloc: Global, parts: &[&str], at: usize) -> Result<Text, RouteFault>
    ensures { Gives result (path_at at (map (λ part. part.now) parts.now)) }
{
    let text = said_at(alloc, parts, at)?;
    if is_path(text.as_str()) {
        Ok(text)
    } else {
        Err(RouteFault::RouteUnknown)
    }
}

fn name_at(alloc: Global, parts: &[&str], at: usize) -> Result<Text, RouteFault>
    ensures { Gives result (name_at at (map (λ part. part.now) parts.now)) }
{
    let text = said_at(alloc, parts, at)?;
    if is_name(text.as_str()) {
        Ok(text)
    } else {
        Err(RouteFault::RouteUnknown)
    }
}

fn label_at(alloc: Global, parts: &[&str], at: usize) -> Result<Text, RouteFault>
    ensures { Gives result (label_at at (map (λ part. part.now) parts.now)) }
{
    let text = said_at(alloc, parts, at)?;
    if is_label(text.as_str()) {
        Ok(text)
    } else {
        Err(RouteFault::RouteUnknown)
    }
}

fn kind_at(alloc: Global, parts: &[&str], at: usize) -> Result<Kind, RouteFault>
    ensures { Gives result (kind_at at (map (λ part. part.now) parts.now)) }
{
    let text = said_at(alloc, parts, at)?;
    kind_of(text.as_str())
}

fn run_at(alloc: Global, parts: &[&str], at: usize) -> Result<u64, RouteFault>
    ensures { Gives result (run_at at (map (λ part. part.now) parts.now)) }
{
    let text = said_at(alloc, parts, at)?;
    run_number(text.as_str())
}

fn file_in(alloc: Global, parts: &[&str]) -> Result<Target, RouteFault>
    ensures { Gives result (file_in (map (λ part. part.now) parts.now)) }
{
    let repo = repository_at(alloc, parts, 2)?;
    let git_ref = ref_at(alloc, parts, 3)?;
    let path = path_at(alloc, parts, 4)?;
    Ok(Target::File(FileKey {
        repo,
        git_ref,
        path,
    }))
}

fn resource_in(alloc: Global, parts: &[&str]) -> Result<Target, RouteFault>
    ensures { Gives result (resource_in (map (λ part. part.now) parts.now)) }
{
    let kind = kind_at(alloc, parts, 2)?;
    let name = name_at(alloc, parts, 3)?;
    Ok(Target::Resource(ResourceKey { kind, name }))
}

fn decision_in(alloc: Global, parts: &[&str]) -> Result<Target, RouteFault>
    ensures { Gives result (decision_in (map (λ part. part.now) parts.now)) }
{
    let run = run_at(alloc, parts, 2)?;
    let stage = name_at(alloc, parts, 4)?;
    Ok(Target::Decision(StageKey { run, stage }))
}

fn job_in(alloc: Global, parts: &[&str]) -> Result<JobKey, RouteFault>
    ensures { Gives result (job_in (map (λ part. part.now) parts.now)) }
{
    let run = run_at(alloc, parts, 2)?;
    let stage = name_at(alloc, parts, 4)?;
    let job = label_at(alloc, parts, 6)?;
    Ok(JobKey { run, stage, job })
}

fn why_in(alloc: Global, parts: &[&str]) -> Result<Target, RouteFault>
    ensures { Gives result (why_in (map (λ part. part.now) parts.now)) }
{
    let job = job_in(alloc, parts)?;
    let agent = name_at(alloc, parts, 8)?;
    Ok(Target::Why(Asking { job, agent }))
}

/// What the parts of a path name.
fn named_at(alloc: Global, place: Place, parts: &[&str]) -> Result<Target, RouteFault>
    ensures { Gives result (named_at place (map (λ part. part.now) parts.now)) }
{
    match place {
        Place::File => file_in(alloc, parts),
        Place::Pipeline => Ok(Target::Pipeline(name_at(alloc, parts, 2)?)),
        Place::Resource => resource_in(alloc, parts),
        Place::Principal => Ok(Target::Principal(name_at(alloc, parts, 2)?)),
        Place::Agent => Ok(Target::Agent(name_at(alloc, parts, 2)?)),
        Place::Texts => Ok(Target::Texts),
        Place::Runs => Ok(Target::Runs),
        Place::Run => Ok(Target::Run(run_at(alloc, parts, 2)?)),
        Place::Cancel => Ok(Target::Cancel(run_at(alloc, parts, 2)?)),
        Place::Decision => decision_in(alloc, parts),
        Place::Draw => Ok(Target::Draw),
        Place::Claim => Ok(Target::Claim(job_in(alloc, parts)?)),
        Place::Why => why_in(alloc, parts),
        Place::Report => Ok(Target::Report(job_in(alloc, parts)?)),
        Place::Shutdown => Ok(Target::Shutdown),
    }
}

/// What a target with this path names. Its parts are cut at the slashes and then decoded: a ref
/// begins with `refs/` and has at most 128 bytes; a path has a `/` at its front, at most 256 bytes
/// and no segment that is empty, `.` or `..`; a run is 1 to 18 digits, the first not 0; a kind is
/// one of five words; a repository has from 1 to 64 bytes, a name from 1 to 100 and a job's label
/// at least 1, none of them with control characters. RouteUnknown where a part breaks its rule.
pub fn target_of(alloc: Global, place: Place, target: &str) -> Result<Target, RouteFault>
    ensures { Gives result (target_at place target.now) }
{
    let parts = parts_of(alloc, target)?;
    named_at(alloc, place, &parts)
}
