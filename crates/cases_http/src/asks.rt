use crate::answers::Answers;
use crate::bodies::answer_body;
use crate::messages::{answer_message, answer_waiting};
use crate::plain::plain;
use crate::replies::answer_reply;
use crate::targets::{answer_part, answer_parts, answer_roles, answer_target};
use crate::written::write_line;
use pl_wire::Routes;
use std::alloc::Global;
use std::str;

/// Answers all cases.
pub fn answer_all(alloc: Global, out: &mut Answers, text: &str) {
    match Routes::new(alloc) {
        Ok(routes) => answer_asks(alloc, out, &routes, text),
        Err(_) => out.fail(),
    }
}

fn answer_asks(alloc: Global, out: &mut Answers, routes: &Routes, text: &str) {
    for ask in text.trim_end_matches('\n').split("\n%%% ask ").skip(1) {
        answer_ask(alloc, out, routes, ask);
    }
}

/// Answers the cases of a question.
fn answer_ask(alloc: Global, out: &mut Answers, routes: &Routes, ask: &str) {
    let (question, rest) = ask.split_once('\n').unwrap_or((ask, ""));
    let (_notes, cases) = rest.split_once("%%% case ").unwrap_or((rest, ""));
    for case in cases.split("\n%%% case ") {
        answer_case(alloc, out, routes, question, case);
    }
}

/// Answers each line of a case.
fn answer_case(alloc: Global, out: &mut Answers, routes: &Routes, question: &str, case: &str) {
    let (name, lines) = case.split_once('\n').unwrap_or((case, ""));
    write_line(out, "%%% case ", name);
    for line in lines.split('\n') {
        out.push(line);
        out.push(" = ");
        answer_line(alloc, out, routes, question, line);
    }
}

fn answer_line(alloc: Global, out: &mut Answers, routes: &Routes, question: &str, line: &str) {
    match plain(alloc, line) {
        Ok(bytes) => match question {
            "messages" => answer_message(alloc, out, routes, bytes),
            _ => answer_bytes(alloc, out, routes, question, bytes.as_slice()),
        },
        Err(_) => out.fail(),
    }
}

fn answer_bytes(alloc: Global, out: &mut Answers, routes: &Routes, question: &str, bytes: &[u8]) {
    match question.strip_prefix("bodies of ") {
        Some(front) => answer_body(alloc, out, front, bytes),
        None => match question {
            "waiting" => answer_waiting(alloc, out, bytes),
            _ => match str::from_utf8(bytes) {
                Ok(text) => answer_text(alloc, out, routes, question, text),
                Err(_) => write_line(out, "no text", ""),
            },
        },
    }
}

fn answer_text(alloc: Global, out: &mut Answers, routes: &Routes, question: &str, text: &str) {
    match question {
        "targets" => answer_target(alloc, out, routes, text),
        "roles" => answer_roles(out, text),
        "parts" => answer_parts(alloc, out, text),
        "what parts say" => answer_part(alloc, out, text),
        "replies" => answer_reply(alloc, out, text),
        _ => write_line(out, "%%% not read: ", question),
    }
}
