use clap::{Arg, ArgAction, ArgMatches, Command as Options, Error};
use pl_base::{Argument, List, Memory, Text};
use pl_words::{Command, parse};
use std::alloc::Global;
use std::test::Fail;

const ADMIN: &str = "ba7816bf8f01cfea414140de5dae2223b00361a396177a9cb410ff61f20015ad";

/// An option with one value.
fn one<'a>(alloc: Global, name: &'a str) -> Arg<'a> {
    Arg::new(alloc, name).long(name).action(ArgAction::Set)
}

/// What `clap` reads of words that begin with a command, whose options these are.
fn by_clap<'a>(
    alloc: Global,
    names: &[&'a str],
    words: &'a [&'a str],
) -> Result<ArgMatches<'a>, Error> {
    let mut options = Options::new(alloc, "pipectl");
    for name in names {
        options = options.arg(one(alloc, *name))?;
    }
    options.try_get_matches_from(words)
}

/// What `clap` reads of the words of `compile`.
fn parameters_by_clap<'a>(alloc: Global, words: &'a [&'a str]) -> Result<ArgMatches<'a>, Error> {
    let parameters = Arg::new(alloc, "param")
        .long("param")
        .action(ArgAction::Append);
    Options::new(alloc, "pipectl")
        .arg(parameters)?
        .try_get_matches_from(words)
}

fn owned(alloc: Global, words: &[&str]) -> Result<Vec<String>, Memory> {
    let mut all = Vec::new(alloc);
    for word in words {
        all.push(String::from_str(alloc, *word)?)?;
    }
    Ok(all)
}

fn text_of(value: &Option<Text>) -> Option<&str> {
    match value {
        Some(text) => Some(text.as_str()),
        None => None,
    }
}

/// Whether `replay` gets the store that `clap` reads, and an admin where that reads one.
fn replays_alike(alloc: Global, words: &[&str]) -> Result<bool, Fail> {
    let read = by_clap(alloc, &["admin", "store"], words)?;
    let all = owned(alloc, words)?;
    match parse(alloc, &all)? {
        Some(Command::Replay { admin: _, store }) => Ok(
            read.get_str("admin") == Some(ADMIN) && read.get_str("store") == text_of(&store),
        ),
        _ => Ok(false),
    }
}

/// Whether these are the arguments that values spell.
fn are_spelled(arguments: &List<Argument>, values: &[&str]) -> bool {
    let mut all = arguments.len() == values.len();
    for (argument, value) in arguments.as_slice().iter().zip(values) {
        all = all
            && value.split_once('=') == Some((argument.name.as_str(), argument.text.as_str()));
    }
    all
}

/// Whether `compile` gets the arguments that `clap` reads.
fn compiles_alike(alloc: Global, words: &[&str]) -> Result<bool, Fail> {
    let read = parameters_by_clap(alloc, words)?;
    let all = owned(alloc, words)?;
    match parse(alloc, &all)? {
        Some(Command::Compile { arguments }) => Ok(are_spelled(
            &arguments,
            read.get_strs("param").unwrap_or(&[]),
        )),
        _ => Ok(false),
    }
}

/// Whether `rehearse` gets the number that `clap` reads.
fn rehearses_alike(alloc: Global, words: &[&str]) -> Result<bool, Fail> {
    let read = by_clap(alloc, &["runs"], words)?;
    let all = owned(alloc, words)?;
    match parse(alloc, &all)? {
        Some(Command::Rehearse { runs }) => {
            let digits = runs.to_string(alloc)?;
            Ok(read.get_str("runs") == Some(digits.as_str()))
        }
        _ => Ok(false),
    }
}

#[test]
fn replay_has_the_values_that_clap_reads(rt: HostRuntime) -> Result<(), Fail> {
    let alloc = rt.alloc();
    assert!(rt; replays_alike(alloc, &["replay", "--admin", ADMIN])?);
    assert!(rt; replays_alike(alloc, &["replay", "--admin", ADMIN, "--store", "rows.db"])?);
    assert!(rt; replays_alike(alloc, &["replay", "--store", "rows.db", "--admin", ADMIN])?);
    assert!(rt; replays_alike(alloc, &["replay", "--store=rows.db", "--admin", ADMIN])?);
    assert!(rt; replays_alike(alloc, &["replay", "--store=a=b", "--admin", ADMIN])?);
    Ok(())
}

#[test]
fn compile_has_the_values_that_clap_reads(rt: HostRuntime) -> Result<(), Fail> {
    let alloc = rt.alloc();
    assert!(rt; compiles_alike(alloc, &["compile"])?);
    assert!(rt; compiles_alike(alloc, &["compile", "--param", "a=b", "--param=c=d=e"])?);
    assert!(rt; compiles_alike(alloc, &["compile", "--param=c=d=e", "--param", "a=b"])?);
    Ok(())
}

#[test]
fn rehearse_has_the_value_that_clap_reads(rt: HostRuntime) -> Result<(), Fail> {
    let alloc = rt.alloc();
    assert!(rt; rehearses_alike(alloc, &["rehearse", "--runs", "4"])?);
    assert!(rt; rehearses_alike(alloc, &["rehearse", "--runs=4096"])?);
    Ok(())
}
