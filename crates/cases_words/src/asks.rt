use crate::commands::{answer_command, answer_compile, answer_replay};
use crate::heads::{answer_head, answer_limit};
use crate::lines::write_line;
use crate::names::{answer_key, answer_name};
use crate::paths::{answer_cut, answer_from_file, answer_from_root};
use crate::plain::plain;
use crate::refusals::answer_refusal;
use crate::scans::{answer_scan, answer_stop};
use pl_base::{Memory, Text};
use std::alloc::Global;
use std::str;

/// Answers all cases.
pub fn answer_all(alloc: Global, out: &mut Text, text: &str) -> Result<(), Memory> {
    for ask in text.trim_end_matches('\n').split("\n%%% ask ").skip(1) {
        answer_ask(alloc, out, ask)?;
    }
    Ok(())
}

/// Answers the cases of a question.
fn answer_ask(alloc: Global, out: &mut Text, ask: &str) -> Result<(), Memory> {
    let (question, rest) = ask.split_once('\n').unwrap_or((ask, ""));
    let (_notes, cases) = rest.split_once("%%% case ").unwrap_or((rest, ""));
    for case in cases.split("\n%%% case ") {
        answer_case(alloc, out, question, case)?;
    }
    Ok(())
}

/// Answers each line of a case.
fn answer_case(alloc: Global, out: &mut Text, question: &str, case: &str) -> Result<(), Memory> {
    let (name, lines) = case.split_once('\n').unwrap_or((case, ""));
    write_line(out, "%%% case ", name)?;
    for line in lines.split('\n') {
        out.push_str(line)?;
        out.push_str(" = ")?;
        answer_line(alloc, out, question, line)?;
    }
    Ok(())
}

fn answer_line(alloc: Global, out: &mut Text, question: &str, line: &str) -> Result<(), Memory> {
    let bytes = plain(alloc, line)?;
    match question {
        "heads" => answer_head(alloc, out, bytes),
        "limits of heads" => answer_limit(alloc, out, bytes.as_slice()),
        "scans" => answer_scan(out, bytes.as_slice()),
        "limits of scans" => answer_stop(alloc, out, bytes.as_slice()),
        _ => answer_bytes(alloc, out, question, bytes.as_slice()),
    }
}

fn answer_bytes(alloc: Global, out: &mut Text, question: &str, bytes: &[u8]) -> Result<(), Memory> {
    match str::from_utf8(bytes) {
        Ok(text) => answer_text(alloc, out, question, text),
        Err(_) => write_line(out, "no text", ""),
    }
}

fn answer_text(alloc: Global, out: &mut Text, question: &str, text: &str) -> Result<(), Memory> {
    match question {
        "arguments of compile" => answer_compile(alloc, out, text),
        "commands" => answer_command(alloc, out, text),
        "is it replay" => answer_replay(alloc, out, text),
        "paths in texts" => answer_cut(alloc, out, text),
        "paths from files" => answer_from_file(alloc, out, text),
        "paths from roots" => answer_from_root(alloc, out, text),
        "keys of files" => answer_key(alloc, out, text),
        "refusals" => answer_refusal(alloc, out, text),
        _ => answer_name(out, question, text),
    }
}
