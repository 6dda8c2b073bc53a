//! Targets: their routes, their parts and their roles.

use crate::answers::Answers;
use crate::checks::put_key;
use crate::words::{kind_word, role_word, route_word};
use crate::written::{put_count, put_shown, put_text, put_word, write_line};
use pl_base::{FileKey, Text};
use pl_routes::{
    Goal, JobKey, Route, RouteFault, Routes, decoded, goal_of, method_of, parts_of, roles_of,
};
use std::alloc::Global;
use std::str;

fn put_job(alloc: Global, out: &mut Answers, word: &str, job: &JobKey) {
    out.push(word);
    put_count(alloc, out, job.run);
    put_text(alloc, out, job.stage.as_str());
    put_text(alloc, out, job.job.as_str())
}

fn put_file(alloc: Global, out: &mut Answers, word: &str, key: &FileKey) {
    out.push(word);
    put_key(alloc, out, key)
}

fn put_name(alloc: Global, out: &mut Answers, word: &str, name: &Text) {
    out.push(word);
    put_text(alloc, out, name.as_str())
}

fn put_run(alloc: Global, out: &mut Answers, word: &str, run: u64) {
    out.push(word);
    put_count(alloc, out, run)
}

fn put_goal(alloc: Global, out: &mut Answers, goal: &Goal) {
    match goal {
        Goal::PutFile(key) => put_file(alloc, out, "PutFile", key),
        Goal::RemoveFile(key) => put_file(alloc, out, "RemoveFile", key),
        Goal::GetFile(key) => put_file(alloc, out, "GetFile", key),
        Goal::SetPipeline(name) => put_name(alloc, out, "SetPipeline", name),
        Goal::SetResource(key) => {
            out.push("SetResource");
            put_word(out, kind_word(key.kind));
            put_text(alloc, out, key.name.as_str())
        }
        Goal::SetPrincipal(name) => put_name(alloc, out, "SetPrincipal", name),
        Goal::SetAgent(name) => put_name(alloc, out, "SetAgent", name),
        Goal::QueueText => out.push("QueueText"),
        Goal::QueueRun => out.push("QueueRun"),
        Goal::ReadRun(run) => put_run(alloc, out, "ReadRun", *run),
        Goal::CancelRun(run) => put_run(alloc, out, "CancelRun", *run),
        Goal::Decide(at) => {
            put_run(alloc, out, "Decide", at.run);
            put_text(alloc, out, at.stage.as_str())
        }
        Goal::Draw => out.push("Draw"),
        Goal::Claim(job) => put_job(alloc, out, "Claim", job),
        Goal::Why(asking) => {
            put_job(alloc, out, "Why", &asking.job);
            put_text(alloc, out, asking.agent.as_str())
        }
        Goal::Report(job) => put_job(alloc, out, "Report", job),
        Goal::Shutdown => out.push("Shutdown"),
    }
}

/// Writes where a request goes: `METHOD TARGET`.
pub fn answer_target(alloc: Global, out: &mut Answers, routes: &Routes, line: &str) {
    let (method, target) = line.split_once(' ').unwrap_or((line, ""));
    match goal_of(alloc, routes, method.as_bytes(), target) {
        Ok(goal) => put_goal(alloc, out, &goal),
        Err(RouteFault::RouteUnknown) => out.push("route.unknown"),
        Err(RouteFault::MethodUnknown) => out.push("method.unknown"),
        Err(RouteFault::Memory) => out.fail(),
    }
    out.push("\n")
}

const ROUTES: [Route; 17] = [
    Route::PutFile,
    Route::RemoveFile,
    Route::GetFile,
    Route::SetPipeline,
    Route::SetResource,
    Route::SetPrincipal,
    Route::SetAgent,
    Route::QueueText,
    Route::QueueRun,
    Route::ReadRun,
    Route::CancelRun,
    Route::Decide,
    Route::Draw,
    Route::Claim,
    Route::Why,
    Route::Report,
    Route::Shutdown,
];

/// Writes the method of a route, and the roles of which a caller needs one.
fn put_route(out: &mut Answers, route: Route) {
    out.push(str::from_utf8(method_of(route)).unwrap_or("no text"));
    for role in roles_of(route) {
        put_word(out, role_word(*role));
    }
    out.push("\n")
}

/// Writes the method and the roles of the route of this name.
pub fn answer_roles(out: &mut Answers, name: &str) {
    for route in ROUTES {
        if route_word(route) == name {
            return put_route(out, route);
        }
    }
    write_line(out, "no route", "")
}

fn put_parts(alloc: Global, out: &mut Answers, parts: &[&str]) {
    for part in parts {
        put_text(alloc, out, *part);
    }
}

/// Writes the parts of a target, as they are spelled.
pub fn answer_parts(alloc: Global, out: &mut Answers, line: &str) {
    match parts_of(alloc, line) {
        Ok(parts) => put_parts(alloc, out, parts.as_slice()),
        Err(_) => out.fail(),
    }
    out.push("\n")
}

/// Writes what a part says.
pub fn answer_part(alloc: Global, out: &mut Answers, line: &str) {
    match decoded(alloc, line) {
        Ok(text) => {
            put_shown(out, text.as_str());
            out.push("\n")
        }
        Err(RouteFault::RouteUnknown) => write_line(out, "no text", ""),
        Err(RouteFault::MethodUnknown) => write_line(out, "no text", ""),
        Err(RouteFault::Memory) => out.fail(),
    }
}
