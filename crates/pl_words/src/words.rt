//! The command that the words are.

ghost use Rattle.std.specs.Prelude.{◌≡◌, Some, map, string_bytes, IfOk, OnErr};
ghost use Rattle.std.specs.Option.{IfSome, IsSome, option_and_then, option_map};
ghost use Rattle.pl_words.specs.Options.{options_of};
ghost use Rattle.pl_words.specs.Words.{TakesMemory, admin_of, arguments_of, command_of};
ghost use Rattle.pl_words.specs.Words.{rehearse_of, replay_of, runs_of, serve_of, store_of};
ghost use Rattle.pl_words.specs.declared.command.Command.TheVariants.{Compile, Serve};

use crate::command::Command;
use crate::digest::digest;
use crate::options::{are_once, value_of};
use crate::parameters::{are_parameters, arguments};
use crate::runs::runs_in;
use pl_base::{Digest, Memory, Text};
use std::alloc::Global;

/// The command that the words are, if they are one.
///
/// `replay` and the option `--admin`; `serve` and the options `--admin` and `--listen`; each of the
/// two may have the option `--store` besides; `rehearse` and the option `--runs`; or `compile` and,
/// as often as wanted, the option `--param`, each time with another name. Options stand in any
/// order, each once but `--param`. An option's value is the next word, which doesn't begin with
/// `-`, or stands behind `=`. The value of `--runs` is a number from 1 to 4096, without a leading
/// zero. That of `--param` is cut at its first `=`, and what stands before it is the name, which
/// isn't empty. Memory where memory is wanting for the arguments of `compile`, the address of
/// `serve`, or the path of a store.
pub fn parse(alloc: Global, words: &[String]) -> Result<Option<Command>, Memory>
    ensures command { IfOk result
        (λ command. command ≡ command_of (map (λ word. string_bytes word) words.now)) }
    ensures memory { OnErr result
        (TakesMemory (command_of (map (λ word. string_bytes word) words.now))) }
{
    match words {
        [name, options @ ..] if name.as_str() == "replay" => replay(alloc, options),
        [name, options @ ..] if name.as_str() == "compile" => compile(alloc, options),
        [name, options @ ..] if name.as_str() == "serve" => serve(alloc, options),
        [name, options @ ..] if name.as_str() == "rehearse" => Ok(rehearse(options)),
        _ => Ok(None),
    }
}

/// The command `replay` with these options.
fn replay(alloc: Global, words: &[String]) -> Result<Option<Command>, Memory>
    ensures command { IfOk result (λ command. command ≡
        option_and_then replay_of (options_of (map (λ word. string_bytes word) words.now))) }
    ensures memory { OnErr result (TakesMemory
        (option_and_then replay_of (options_of (map (λ word. string_bytes word) words.now)))) }
{
    if !are_once(&["--admin", "--store"], words) {
        return Ok(None);
    }
    match admin(words) {
        Some(admin) => {
            let store = store(alloc, words)?;
            Ok(Some(Command::Replay { admin, store }))
        }
        None => Ok(None),
    }
}

/// The digest that the option `--admin` gives.
fn admin(words: &[String]) -> Option<Digest>
    ensures { IfSome (options_of (map (λ word. string_bytes word) words.now))
        (λ options. result ≡ admin_of options) }
{
    digest(value_of("--admin", words)?.as_bytes())
}

/// The path that the option `--store` gives, if it is given.
fn store(alloc: Global, words: &[String]) -> Result<Option<Text>, Memory>
    ensures path { IfOk result (λ store.
        IfSome (options_of (map (λ word. string_bytes word) words.now))
        (λ options. store ≡ store_of options)) }
    ensures given { OnErr result
        (IfSome (options_of (map (λ word. string_bytes word) words.now))
        (λ options. IsSome (store_of options))) }
{
    match value_of("--store", words) {
        Some(path) => Ok(Some(Text::from_str(alloc, path)?)),
        None => Ok(None),
    }
}

/// The command `compile` with these options.
fn compile(alloc: Global, options: &[String]) -> Result<Option<Command>, Memory>
    ensures command { IfOk result (λ command. command ≡ option_map (λ arguments. Compile arguments)
        (arguments_of (map (λ word. string_bytes word) options.now))) }
    ensures some { OnErr result
        (IsSome (arguments_of (map (λ word. string_bytes word) options.now))) }
{
    if !are_parameters(options) {
        return Ok(None);
    }
    let arguments = arguments(alloc, options)?;
    Ok(Some(Command::Compile { arguments }))
}

/// The command `rehearse` with these options.
fn rehearse(words: &[String]) -> Option<Command>
    ensures { result ≡
        option_and_then rehearse_of (options_of (map (λ word. string_bytes word) words.now)) }
{
    if !are_once(&["--runs"], words) {
        return None;
    }
    match runs(words) {
        Some(runs) => Some(Command::Rehearse { runs }),
        None => None,
    }
}

/// The number that the option `--runs` gives.
fn runs(words: &[String]) -> Option<u64>
    ensures { IfSome (options_of (map (λ word. string_bytes word) words.now))
        (λ options. result ≡ runs_of options) }
{
    runs_in(value_of("--runs", words)?)
}

/// The command `serve` with these options.
fn serve(alloc: Global, options: &[String]) -> Result<Option<Command>, Memory>
    ensures command { IfOk result (λ command. command ≡
        option_and_then serve_of (options_of (map (λ word. string_bytes word) options.now))) }
    ensures some { OnErr result (IsSome
        (option_and_then serve_of (options_of (map (λ word. string_bytes word) options.now)))) }
{
    if !are_once(&["--admin", "--listen", "--store"], options) {
        return Ok(None);
    }
    match (admin(options), value_of("--listen", options)) {
        (Some(admin), Some(address)) => serve_at(alloc, admin, address, options),
        _ => Ok(None),
    }
}

/// The command `serve` with these values, and the store that the options give.
fn serve_at(
    alloc: Global,
    admin: Digest,
    address: &str,
    options: &[String],
) -> Result<Option<Command>, Memory>
    ensures { IfOk result (λ command.
        IfSome (options_of (map (λ word. string_bytes word) options.now))
        (λ options. command ≡ Some (Serve admin address.now (store_of options)))) }
{
    let address = Text::from_str(alloc, address)?;
    let store = store(alloc, options)?;
    Ok(Some(Command::Serve {
        admin,
        address,
        store,
    }))
}
