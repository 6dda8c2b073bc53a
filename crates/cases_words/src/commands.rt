use crate::lines::{write_line, write_whether};
use pl_base::{Argument, List, Memory, Text};
use pl_words::{Command, parse};
use std::alloc::Global;

/// The words of a line, which are parted by single spaces; no word where the line is empty.
fn words_of(alloc: Global, line: &str) -> Result<Vec<String>, Memory> {
    let mut words = Vec::new(alloc);
    if line.is_empty() {
        return Ok(words);
    }
    for word in line.split(' ') {
        words.push(String::from_str(alloc, word)?)?;
    }
    Ok(words)
}

fn push_argument(out: &mut Text, argument: &Argument) -> Result<(), Memory> {
    out.push_str(argument.name.as_str())?;
    out.push_str(":")?;
    out.push_str(argument.text.as_str())?;
    out.push_str(";")
}

fn write_arguments(out: &mut Text, arguments: &List<Argument>) -> Result<(), Memory> {
    for argument in arguments.as_slice() {
        push_argument(out, argument)?;
    }
    out.push_str("\n")
}

/// Writes what `compile` gets by the words of a line, each argument as `NAME:TEXT;`, or `none`
/// where they are no command, or another one.
pub fn answer_compile(alloc: Global, out: &mut Text, line: &str) -> Result<(), Memory> {
    let words = words_of(alloc, line)?;
    match parse(alloc, &words)? {
        Some(Command::Compile { arguments }) => write_arguments(out, &arguments),
        _ => write_line(out, "none", ""),
    }
}

/// Writes whether the words of a line are the command `replay`.
pub fn answer_replay(alloc: Global, out: &mut Text, line: &str) -> Result<(), Memory> {
    let words = words_of(alloc, line)?;
    let command = parse(alloc, &words)?;
    write_whether(out, matches!(&command, Some(Command::Replay { .. })))
}

fn write_store(out: &mut Text, store: &Option<Text>) -> Result<(), Memory> {
    if let Some(path) = store {
        out.push_str(" store:")?;
        out.push_str(path.as_str())?;
    }
    out.push_str("\n")
}

fn write_runs(alloc: Global, out: &mut Text, runs: u64) -> Result<(), Memory> {
    let digits = runs.to_string(alloc)?;
    write_line(out, "rehearse runs:", digits.as_str())
}

/// Writes the command that the words of a line are, with its address, its store and how many runs it
/// rehearses, or `none`.
pub fn answer_command(alloc: Global, out: &mut Text, line: &str) -> Result<(), Memory> {
    let words = words_of(alloc, line)?;
    match parse(alloc, &words)? {
        Some(Command::Replay { admin: _, store }) => {
            out.push_str("replay")?;
            write_store(out, &store)
        }
        Some(
            Command::Serve {
                admin: _,
                address,
                store,
            },
        ) => {
            out.push_str("serve at:")?;
            out.push_str(address.as_str())?;
            write_store(out, &store)
        }
        Some(Command::Compile { arguments: _ }) => write_line(out, "compile", ""),
        Some(Command::Rehearse { runs }) => write_runs(alloc, out, runs),
        None => write_line(out, "none", ""),
    }
}
