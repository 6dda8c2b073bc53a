use crate::again::answered_again;
use crate::message::{Moments, Session, push_message};
use crate::outside::outside_of;
use crate::told::push_replies;
use pl_base::{List, Memory};
use pl_cases::{Answers, answer_each};
use pl_commands::run;
use std::alloc::Global;
use std::sync::Wait;
use std::thread::Threads;

/// Answers all cases of a text, which stand in it as `pl_cases` says.
pub fn answer_sessions<R: Threads + Wait + Sync>(
    rt: &R,
    alloc: Global,
    out: &mut Answers,
    text: &str,
) {
    answer_each(out, text, |out, question, _notes, case| match question {
        "replies" => answer_case(rt, alloc, out, case),
        "rehearsals" | "doors" => answer_command(rt, alloc, out, case),
        _ => out.line("%%% not read: ", question),
    })
}

/// The words of the command: the admin's token is `abc`.
const WORDS: [&str; 3] = [
    "replay",
    "--admin",
    "ba7816bf8f01cfea414140de5dae2223b00361a396177a9cb410ff61f20015ad",
];

/// The words of the command, and these.
pub fn words(alloc: Global, more: &[&str]) -> Result<Vec<String>, Memory> {
    let mut words = Vec::new(alloc);
    for word in WORDS {
        words.push(String::from_str(alloc, word)?)?;
    }
    for word in more {
        words.push(String::from_str(alloc, *word)?)?;
    }
    Ok(words)
}

/// The messages of a case, and the moments of its clock.
fn session_of(alloc: Global, case: &str) -> Result<Session, Memory> {
    let mut session = Session {
        input: Vec::new(alloc),
        ends: Vec::new(alloc),
        moments: Moments::new(alloc),
    };
    let messages = case.strip_prefix("> ").unwrap_or(case);
    for message in messages.split("\n> ") {
        push_message(alloc, &mut session, message)?;
    }
    Ok(session)
}

/// Writes what the messages of a case are answered, and the status at their end; and whether that
/// is otherwise where the service is closed and opened again behind each message.
fn answer_case<R: Threads + Wait + Sync>(rt: &R, alloc: Global, out: &mut Answers, case: &str) {
    if answer_session(rt, alloc, out, case).is_err() {
        out.fail()
    }
}

fn answer_session<R: Threads + Wait + Sync>(
    rt: &R,
    alloc: Global,
    out: &mut Answers,
    case: &str,
) -> Result<(), Memory> {
    let session = session_of(alloc, case)?;
    let moments = session.moments.again(alloc)?;
    let mut outside = outside_of(alloc, session.input.as_slice(), moments, List::new(alloc))?;
    let words = words(alloc, &[])?;
    let code = run(rt, alloc, words.as_slice(), &mut outside).code();
    let written = outside.ends.sink.bytes();
    push_replies(alloc, out, written);
    push_status(alloc, out, code);
    if !answered_again(rt, alloc, &session, code, written)? {
        out.push("otherwise when it is opened again behind each message\n");
    }
    Ok(())
}

fn push_status(alloc: Global, out: &mut Answers, code: u8) {
    out.push("status ");
    out.number(alloc, u64::from(code));
    out.push("\n")
}

/// Writes what a command writes that reads nothing, whose words a case is, and its status.
fn answer_command<R: Threads + Wait + Sync>(rt: &R, alloc: Global, out: &mut Answers, case: &str) {
    if answer_words(rt, alloc, out, case).is_err() {
        out.fail()
    }
}

fn answer_words<R: Threads + Wait + Sync>(
    rt: &R,
    alloc: Global,
    out: &mut Answers,
    case: &str,
) -> Result<(), Memory> {
    let mut words = Vec::new(alloc);
    for word in case.split(' ') {
        words.push(String::from_str(alloc, word)?)?;
    }
    let mut outside = outside_of(alloc, &[], Moments::new(alloc), List::new(alloc))?;
    let code = run(rt, alloc, words.as_slice(), &mut outside).code();
    push_replies(alloc, out, outside.ends.sink.bytes());
    push_status(alloc, out, code);
    Ok(())
}
