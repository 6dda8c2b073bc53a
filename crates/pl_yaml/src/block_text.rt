ghost use Rattle.std.specs.Prelude.{◌≡◌, ◌++◌, ◌∷◌, OnOk, IfOk, encode_utf8_all, string_bytes};
ghost use Rattle.std.specs.Prelude.{option_to_list};
ghost use Rattle.std.specs.Option.{option_map};
ghost use Rattle.pl_yaml.specs.BlockScalars as spec;

use crate::block_line::BlockLine;
use crate::block_lines::BlockLines;
use crate::header::Chomping;
use crate::push::{push_all, push_times};
use pl_base::{Memory, Text};
use std::alloc::{AllocError, Global};

/// Whether a line has no character.
fn is_void(line: &BlockLine) -> bool
    ensures { result ≡ spec.is_void (spec.text_line line.now) }
{
    line.spaces == 0 && line.text.is_empty()
}

/// Whether a line begins with a character that is no blank.
fn is_flush(line: &BlockLine) -> bool
    ensures { result ≡ spec.is_flush (spec.text_line line.now).text }
{
    match line.text.first() {
        Some(first) => line.spaces == 0 && first != ' ' && first != '\t',
        None => false,
    }
}

/// The first of these lines that isn't empty.
#[tactic(auto, unfolding(crate::specs::BlockScalars::next_line))]
fn next_line<'t>(lines: &BlockLines<'t>) -> Option<BlockLine<'t>>
    ensures { option_map spec.text_line result ≡ spec.next_line lines.now }
{
    match lines.first() {
        Some(line) if is_void(&line) => next_far(lines),
        first => first,
    }
}

/// The same where the first line may be empty.
#[tactic(auto, unfolding(crate::specs::BlockScalars::next_line))]
fn next_far<'t>(lines: &BlockLines<'t>) -> Option<BlockLine<'t>>
    ensures { option_map spec.text_line result ≡ spec.next_line lines.now }
{
    let mut ahead = lines.copy();
    while let Some(line) = ahead.next() {
        if !is_void(&line) {
            return Some(line);
        }
    }
    None
}

/// The next line that isn't empty behind a line, which is at hand where that line is empty.
#[tactic(auto, unfolding(crate::specs::BlockScalars::next_line))]
fn next_behind<'t>(
    next: Option<BlockLine<'t>>,
    line: &BlockLine<'t>,
    after: &BlockLines<'t>,
) -> Option<BlockLine<'t>>
    requires { option_map spec.text_line next
        ≡ spec.next_line (spec.text_line line.now ∷ after.now) }
    ensures { option_map spec.text_line result ≡ spec.next_line after.now }
{
    if is_void(line) {
        next
    } else {
        next_line(after)
    }
}

/// The break behind the last line that isn't empty, or behind an empty line that follows it.
fn last_break(chomping: Chomping, line: &BlockLine) -> Option<char>
    ensures { option_to_list result ≡ spec.last_break chomping (spec.text_line line.now) }
{
    let stays = match chomping {
        Chomping::Strip => false,
        Chomping::Keep => line.broken,
        Chomping::Clip => line.broken && !is_void(line),
    };
    stays.then_some('\n')
}

/// The break behind a line before others, the next of which isn't empty.
fn inner_break(folded: bool, line: &BlockLine, after: &BlockLines, next: &BlockLine) -> Option<char>
    ensures { option_to_list result ≡ spec.inner_break folded (spec.text_line line.now) after.now
        (spec.text_line next.now) }
{
    if !folded || !is_flush(line) || !is_flush(next) {
        return Some('\n');
    }
    match after.first() {
        Some(first) if is_void(&first) => None,
        _ => Some(' '),
    }
}

/// The break behind a line.
fn break_before(
    folded: bool,
    chomping: Chomping,
    line: &BlockLine,
    after: &BlockLines,
    next: Option<BlockLine>,
) -> Option<char>
    ensures { option_to_list result ≡ spec.break_before folded chomping (spec.text_line line.now)
        after.now (option_map spec.text_line next.entry) }
{
    match next {
        Some(next) => inner_break(folded, line, after, &next),
        None => last_break(chomping, line),
    }
}

/// Adds a line to a text.
#[tactic(auto, using(crate::proofs::Laws::BlockScalars::pushed))]
fn push_line(text: &mut String, line: &BlockLine) -> Result<(), AllocError>
    ensures { OnOk result (string_bytes text.new ≡ string_bytes text.old ++
        encode_utf8_all (spec.text_line line.now).text) }
{
    push_times(text, ' ', line.spaces)?;
    push_all(text, line.text)
}

/// Adds a break to a text, where there is one.
fn push_break(text: &mut String, end: Option<char>) -> Result<(), AllocError>
    ensures { OnOk result (string_bytes text.new ≡ string_bytes text.old ++
        encode_utf8_all (option_to_list end)) }
{
    match end {
        Some(end) => push_times(text, end, 1),
        None => Ok(()),
    }
}

/// The text of a block scalar's lines.
#[tactic(auto, unfolding(crate::specs::BlockScalars::block_text))]
pub(crate) fn block_text(
    alloc: Global,
    folded: bool,
    chomping: Chomping,
    lines: BlockLines,
) -> Result<Text, Memory>
    ensures { IfOk result (λ text. text ≡
        encode_utf8_all (spec.block_text folded chomping lines.entry)) }
{
    let mut text = String::new(alloc);
    let mut after = lines;
    let mut next = next_line(&after);
    while let Some(line) = after.next() {
        next = next_behind(next, &line, &after);
        push_line(&mut text, &line)?;
        push_break(
            &mut text,
            break_before(folded, chomping, &line, &after, next),
        )?;
    }
    Ok(Text::from_string(text))
}
