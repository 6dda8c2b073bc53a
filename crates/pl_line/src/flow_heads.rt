ghost use Rattle.std.specs.Prelude.{◌≡◌, ◌≤◌, ◌+◌, false, length, drop};
ghost use Rattle.pl_line.specs.declared.line_fault.ReadFault.TheVariants.{Refused};
ghost use Rattle.pl_line.specs.Characters.{all_of};
ghost use Rattle.pl_line.specs.Lines.{row};
ghost use Rattle.pl_line.specs.Flow as spec;

use crate::characters::Characters;
use crate::code::YamlCode;
use crate::flow_head::FlowHead;
use crate::left::{end_code, fault_at};
use crate::line::Line;
use crate::line_fault::ReadFault;
use crate::scan::{begins_with, ends_word, is_blank};

/// Whether a character ends a plain scalar in a flow collection wherever it stands.
fn is_flow_indicator(character: char) -> bool
    ensures { result ≡ spec.is_flow_indicator character }
{
    matches!(character, ',' | '[' | ']' | '{' | '}')
}

/// How many of these characters a plain scalar takes that has begun before them, blanks at its end
/// counted.
fn flow_len(text: Characters, whole: bool) -> usize
    ensures value { result ≡ spec.flow_len whole false (all_of text.entry) }
    ensures within { result ≤ length (all_of text.entry) }
{
    let mut rest = text;
    let mut len = 0;
    let mut behind_blank = false;
    while let Some(c) = rest.next() {
        if c == ':' && ends_word(rest, whole) || c == '#' && behind_blank || is_flow_indicator(c) {
            return len;
        }
        behind_blank = is_blank(c);
        len += 1;
    }
    len
}

/// How many characters a plain scalar takes that begins with these, blanks at its end counted.
fn plain_len(text: Characters, whole: bool) -> usize
    requires { 1 ≤ length (all_of text) }
    ensures value { result ≡ 1 + spec.flow_len whole false (drop 1 (all_of text.entry)) }
    ensures within { result ≤ length (all_of text.entry) }
{
    1 + flow_len(text.behind(1), whole)
}

/// Whether a character begins no node wherever it stands.
fn begins_none(character: char) -> bool
    ensures { result ≡ spec.begins_none character }
{
    matches!(
        character,
        ',' | ']' | '}' | '#' | '|' | '>' | '%' | '@' | '`'
    )
}

/// What begins with a text.
#[tactic(auto, unfolding(crate::specs::Flow::head_at))]
fn head_at(text: Characters, whole: bool) -> FlowHead
    ensures value { result ≡ spec.head_at whole (all_of text.entry) }
    ensures within { spec.Spans (length (all_of text.entry)) result }
{
    let mut rest = text;
    let Some(first) = rest.next() else {
        return FlowHead::End;
    };
    match first {
        '[' | '{' => FlowHead::Collection,
        '\'' | '"' => FlowHead::Quote,
        '&' | '*' => FlowHead::Anchor,
        '!' => FlowHead::Tag,
        '?' if ends_word(rest, whole) => FlowHead::Question,
        c if begins_none(c) || (c == '-' || c == ':') && ends_word(rest, whole) => FlowHead::Stray,
        _ => FlowHead::Plain(plain_len(text, whole)),
    }
}

/// What begins at a line's column.
pub(crate) fn head_of(line: &Line) -> FlowHead
    ensures value { result ≡ spec.head_of (row line.now) }
    ensures within { spec.Spans (length (all_of line.now.text)) result }
{
    head_at(line.text, line.whole)
}

/// Why nothing is read at such a head, where an entry of a sequence or a value begins.
pub(crate) fn refusal(head: FlowHead, line: &Line) -> YamlCode
    ensures { result ≡ spec.refusal line.now.whole head }
{
    match head {
        FlowHead::Anchor => YamlCode::Anchor,
        FlowHead::Tag => YamlCode::Tag,
        FlowHead::End => end_code(line),
        _ => YamlCode::NoEntry,
    }
}

/// The fault of text that can't stand at a line's column.
pub(crate) fn misplaced(line: &Line) -> ReadFault
    ensures { result ≡ Refused (spec.misplaced (row line.now)) }
{
    if line.text.is_empty() {
        fault_at(end_code(line), line)
    } else {
        fault_at(YamlCode::NoEntry, line)
    }
}

/// The fault behind a collection that stands in a key's place.
pub(crate) fn no_key(line: &Line) -> ReadFault
    ensures { result ≡ Refused (spec.no_key (row line.now)) }
{
    if begins_with(':', line.text) {
        fault_at(YamlCode::ComplexKey, line)
    } else {
        misplaced(line)
    }
}
