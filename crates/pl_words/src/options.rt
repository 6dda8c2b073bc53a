//! Options as the words spell them.

ghost use Rattle.std.specs.Prelude.{◌≡◌, ◌<◌, ◌∷◌, length, map, string_bytes, false};
ghost use Rattle.std.specs.Option.{IfSome, option_map, option_map_or};
ghost use Rattle.pl_words.specs.Options.{are_once, begins_as_an_option, has_equals, is_given};
ghost use Rattle.pl_words.specs.Options.{joined_in, options_of, value_of};
ghost use Rattle.pl_words.specs.Parameters.{front_in, given};

/// An option as the words spell it.
#[derive(Clone, Copy)]
pub(crate) struct Spelled<'a> {
    pub name: &'a str,
    pub value: &'a str,
}

/// An option, and the words behind it.
#[derive(Clone, Copy)]
pub(crate) struct Front<'a> {
    pub option: Spelled<'a>,
    pub behind: &'a [String],
}

/// Whether a word begins as options do.
fn begins_as_an_option(word: &str) -> bool
    ensures { result ≡ begins_as_an_option word.now }
{
    word.starts_with('-')
}

/// A name and its value in one word, parted by the first `=`.
fn joined(word: &str) -> Option<Spelled<'_>>
    ensures { option_map given result ≡ joined_in word.entry.now }
{
    match word.split_once('=') {
        Some((name, value)) => Some(Spelled { name, value }),
        None => None,
    }
}

/// An option whose name is a word of its own: its value, which doesn't begin as an option, is the
/// next one.
fn apart<'a>(name: &'a str, words: &'a [String]) -> Option<Front<'a>>
    requires { has_equals name.now ≡ false }
    ensures front { options_of (name.entry.now ∷ map (λ word. string_bytes word) words.entry.now) ≡
        front_in result }
    ensures fewer { IfSome result (λ front. length front.behind.now < length words.now) }
{
    match words {
        [value, behind @ ..] if !begins_as_an_option(value.as_str()) => {
            let value = value.as_str();
            let option = Spelled { name, value };
            Some(Front { option, behind })
        }
        _ => None,
    }
}

/// The option that words begin with: `NAME=VALUE`, or a name and a value that doesn't begin with
/// `-`.
pub(crate) fn first(words: &[String]) -> Option<Front<'_>>
    requires { 0 < length words.now }
    ensures front { options_of (map (λ word. string_bytes word) words.entry.now) ≡
        front_in result }
    ensures fewer { IfSome result (λ front. length front.behind.now < length words.now) }
{
    match words {
        [word, behind @ ..] => match joined(word.as_str()) {
            Some(option) => Some(Front { option, behind }),
            None => apart(word.as_str(), behind),
        },
        [] => None,
    }
}

/// Whether an option of this name is among those that the words spell.
fn is_given(name: &str, words: &[String]) -> bool
    ensures { IfSome (options_of (map (λ word. string_bytes word) words.now))
        (λ options. result ≡ is_given name.now options) }
{
    let mut rest = words;
    while !rest.is_empty() {
        let Some(front) = first(rest) else {
            return false;
        };
        if front.option.name == name {
            return true;
        }
        rest = front.behind;
    }
    false
}

/// The value of the option of this name, if it is among those that the words spell.
pub(crate) fn value_of<'a>(name: &str, words: &'a [String]) -> Option<&'a str>
    ensures { IfSome (options_of (map (λ word. string_bytes word) words.entry.now))
        (λ options. option_map (λ value. value.now) result ≡ value_of name.now options) }
{
    let mut rest = words;
    while !rest.is_empty() {
        let front = first(rest)?;
        if front.option.name == name {
            return Some(front.option.value);
        }
        rest = front.behind;
    }
    None
}

/// Whether the words are options that all have one of these names, each of them once at most.
pub(crate) fn are_once(names: &[&str], words: &[String]) -> bool
    ensures { result ≡ option_map_or (are_once (map (λ name. name.now) names.now))
        (options_of (map (λ word. string_bytes word) words.now)) false }
{
    let mut rest = words;
    while !rest.is_empty() {
        let Some(front) = first(rest) else {
            return false;
        };
        if !(&*names).contains(&front.option.name) || is_given(front.option.name, front.behind) {
            return false;
        }
        rest = front.behind;
    }
    true
}
