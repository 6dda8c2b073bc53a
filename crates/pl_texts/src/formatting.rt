ghost use Rattle.std.specs.Prelude.{◌≡◌, ◌<◌, [], length, IsSome, IfSome, is_some};
ghost use Rattle.std.specs.Option.{option_copied, option_map};
ghost use Rattle.pl_texts.specs.Gives.{Gives};
ghost use Rattle.pl_texts.specs.Formatting.{formatted, filled, continued, cut_off, braced, hole};
ghost use Rattle.pl_texts.specs.Formatting.{argument_of};
ghost use Rattle.pl_reading.specs.Bytes.{digits_of, begins_with};

use crate::bound::push_bounded;
use crate::fault::TextFault;
use crate::scanning::{
    begins_with, count_digits, is_plain_number, leading_number, skip_byte, split_ascii,
    split_plain, whole,
};
use pl_base::{List, Text};
use std::alloc::Global;

/// The pattern with `{n}` replaced by argument n, counted from 0, `{{` by `{` and `}}` by `}`.
///
/// Index where any other brace stands, or an n that is no argument's number or has a leading zero.
/// Else TooLong where the result has more than 65,536 bytes.
pub fn format(alloc: Global, pattern: &Text, arguments: &List<Text>) -> Result<Text, TextFault>
    ensures { Gives result (formatted arguments.now pattern.now) }
{
    if !is_pattern(pattern.as_str(), arguments) {
        return Err(TextFault::Index);
    }
    fill(alloc, pattern.as_str(), arguments)
}

/// Whether each brace is in its place and each hole has its argument.
fn is_pattern(pattern: &str, arguments: &List<Text>) -> bool
    ensures { result ≡ is_some (filled arguments.now pattern.now) }
{
    let mut rest = pattern;
    while !rest.is_empty() {
        match next_piece(rest, arguments) {
            Some((_piece, behind)) => rest = whole(behind),
            None => return false,
        }
    }
    true
}

fn fill(alloc: Global, pattern: &str, arguments: &List<Text>) -> Result<Text, TextFault>
    requires { IsSome (filled arguments.now pattern.now) }
    ensures { Gives result (formatted arguments.now pattern.now) }
{
    let mut made = Text::new(alloc);
    let mut rest = pattern;
    while !rest.is_empty() {
        let Some((piece, behind)) = next_piece(rest, arguments) else {
            return Err(TextFault::Index);
        };
        push_bounded(&mut made, piece)?;
        rest = whole(behind);
    }
    Ok(made)
}

/// The text of the piece that the pattern begins with, and the pattern behind it. None where that
/// is no piece.
fn next_piece<'t>(pattern: &'t str, arguments: &'t List<Text>) -> Option<(&'t str, &'t str)>
    requires { 0 < length pattern.now }
    ensures piece { filled arguments.now pattern.now ≡
        continued arguments.now (option_map (λ parts. (parts.0.now, parts.1.now)) result) }
    ensures shorter { IfSome result (λ parts. length parts.1.now < length pattern.now) }
{
    if begins_with(pattern, b'{') {
        opened(skip_byte(pattern, b'{'), arguments)
    } else if begins_with(pattern, b'}') {
        closed(skip_byte(pattern, b'}'))
    } else {
        Some(split_plain(pattern))
    }
}

/// What a `{` begins: a second one, or a hole.
fn opened<'t>(behind: &'t str, arguments: &'t List<Text>) -> Option<(&'t str, &'t str)>
    ensures { option_map (λ parts. (parts.0.now, parts.1.now)) result ≡
        cut_off behind.now (braced arguments.now 123 behind.now) }
{
    if begins_with(behind, b'{') {
        return Some(("{", skip_byte(behind, b'{')));
    }
    fill_hole(behind, arguments)
}

/// What a `}` begins: a second one.
fn closed(behind: &str) -> Option<(&str, &str)>
    ensures { option_map (λ parts. (parts.0.now, parts.1.now)) result ≡
        cut_off behind.now (braced [] 125 behind.now) }
{
    if !begins_with(behind, b'}') {
        return None;
    }
    Some(("}", skip_byte(behind, b'}')))
}

/// The argument whose number stands between braces, from behind the first one on.
fn fill_hole<'t>(behind: &'t str, arguments: &'t List<Text>) -> Option<(&'t str, &'t str)>
    ensures { option_map (λ parts. (parts.0.now, parts.1.now)) result ≡
        cut_off behind.now (hole arguments.now behind.now) }
{
    let count = count_digits(behind);
    let (_digits, rest) = split_ascii(behind, count);
    if !begins_with(rest, b'}') {
        return None;
    }
    match argument_of(arguments, behind) {
        Some(argument) => Some((argument.as_str(), skip_byte(rest, b'}'))),
        None => None,
    }
}

/// The argument of the number that the text begins with.
fn argument_of<'t>(arguments: &'t List<Text>, text: &str) -> Option<&'t Text>
    ensures { option_copied result ≡ argument_of arguments.now (digits_of text.now) }
{
    let number = leading_number(text);
    if !is_plain_number(text) || number >= arguments.len() {
        return None;
    }
    arguments.get(number)
}
