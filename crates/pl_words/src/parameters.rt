//! The options of `compile`.

ghost use Rattle.std.specs.Prelude.{◌≡◌, ◌<◌, length, map, string_bytes, IfOk};
ghost use Rattle.std.specs.Option.{IfSome, IsSome, is_some, option_map};
ghost use Rattle.pl_words.specs.Parameters.{argument_in, first_in, given};
ghost use Rattle.pl_words.specs.Words.{argument_given, argument_of, arguments_of, is_named};

use crate::options::{Spelled, first};
use pl_base::{Argument, List, Memory, Text};
use std::alloc::Global;

/// An argument as the words spell it.
#[derive(Clone, Copy)]
struct Parameter<'a> {
    name: &'a str,
    text: &'a str,
}

/// An argument, and the words behind it.
#[derive(Clone, Copy)]
struct Lead<'a> {
    parameter: Parameter<'a>,
    behind: &'a [String],
}

/// A value of `--param`: a name that isn't empty, `=`, and a text.
fn argument_of(value: &str) -> Option<Parameter<'_>>
    ensures { argument_of value.entry.now ≡ option_map argument_in result }
{
    match value.split_once('=') {
        Some((name, text)) if !name.is_empty() => Some(Parameter { name, text }),
        _ => None,
    }
}

/// The argument that an option gives.
fn argument_given(option: Spelled<'_>) -> Option<Parameter<'_>>
    ensures { argument_given (given option.entry) ≡ option_map argument_in result }
{
    if option.name == "--param" {
        argument_of(option.value)
    } else {
        None
    }
}

/// The argument that words begin with.
fn first_argument(words: &[String]) -> Option<Lead<'_>>
    requires { 0 < length words.now }
    ensures lead { arguments_of (map (λ word. string_bytes word) words.entry.now) ≡
        first_in result }
    ensures fewer { IfSome result (λ lead. length lead.behind.now < length words.now) }
{
    let front = first(words)?;
    let parameter = argument_given(front.option)?;
    let behind = front.behind;
    Some(Lead { parameter, behind })
}

/// Whether an argument of this name is among those that the words spell.
fn is_named(name: &str, words: &[String]) -> bool
    ensures { IfSome (arguments_of (map (λ word. string_bytes word) words.now))
        (λ arguments. result ≡ is_named name.now arguments) }
{
    let mut rest = words;
    while !rest.is_empty() {
        let Some(lead) = first_argument(rest) else {
            return false;
        };
        if lead.parameter.name == name {
            return true;
        }
        rest = lead.behind;
    }
    false
}

/// Whether the words are arguments, each of another name.
pub(crate) fn are_parameters(words: &[String]) -> bool
    ensures { result ≡ is_some (arguments_of (map (λ word. string_bytes word) words.now)) }
{
    let mut rest = words;
    while !rest.is_empty() {
        let Some(lead) = first_argument(rest) else {
            return false;
        };
        if is_named(lead.parameter.name, lead.behind) {
            return false;
        }
        rest = lead.behind;
    }
    true
}

/// An argument with texts of its own.
fn copied(alloc: Global, parameter: Parameter<'_>) -> Result<Argument, Memory>
    ensures { IfOk result (λ argument. argument ≡ argument_in parameter.entry) }
{
    let name = Text::from_str(alloc, parameter.name)?;
    let text = Text::from_str(alloc, parameter.text)?;
    Ok(Argument { name, text })
}

/// The arguments that the words are.
pub(crate) fn arguments(alloc: Global, words: &[String]) -> Result<List<Argument>, Memory>
    requires { IsSome (arguments_of (map (λ word. string_bytes word) words.now)) }
    ensures { IfOk result (λ arguments.
        arguments_of (map (λ word. string_bytes word) words.now) ≡ Some arguments) }
{
    let mut arguments = List::new(alloc);
    let mut rest = words;
    while !rest.is_empty() {
        let Some(lead) = first_argument(rest) else {
            break;
        };
        arguments.push(copied(alloc, lead.parameter)?)?;
        rest = lead.behind;
    }
    Ok(arguments)
}
