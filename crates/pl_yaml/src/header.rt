ghost use Rattle.std.specs.Prelude.{◌≡◌, ◌+◌, ◌<◌, ◌≤◌, length, IfSome};
ghost use Rattle.pl_line.specs.Characters.{all_of};
ghost use Rattle.pl_line.specs.Lines.{row};
ghost use Rattle.pl_yaml.specs.BlockScalars as spec;

use pl_line::{Characters, Line, begins_with};

/// What becomes of the breaks at a block scalar's end (YAML 1.2.2, section 8.1.1.2).
#[derive(Clone, Copy, Debug, PartialEq, Eq)]
pub(crate) enum Chomping {
    /// The last line keeps its break.
    Clip,
    /// `-`: none stays.
    Strip,
    /// `+`: all stay.
    Keep,
}

/// What a block scalar's first line says of it: whether its lines are folded (`>`), how far behind
/// its block its content begins, what becomes of its last breaks, and how many characters say so.
#[derive(Clone, Copy)]
pub(crate) struct Header {
    pub(crate) folded: bool,
    pub(crate) digit: Option<u32>,
    pub(crate) chomping: Chomping,
    pub(crate) len: usize,
}

/// The header that a line begins with.
pub(crate) fn header_of(line: &Line) -> Header
    requires { 1 ≤ length (all_of line.now.text) }
    ensures value { result ≡ spec.header_of (row line.now) }
    ensures within { result.len ≤ length (all_of line.now.text) }
{
    let marks = indicators(line.text.behind(1));
    Header {
        folded: begins_with('>', line.text),
        digit: digit_of(marks),
        chomping: chomping_of(marks),
        len: 1 + marks.len(),
    }
}

fn is_digit(character: char) -> bool
    ensures { result ≡ spec.is_digit character }
{
    '0' < character && character < ':'
}

fn is_sign(character: char) -> bool
    ensures { result ≡ spec.is_sign character }
{
    character == '+' || character == '-'
}

/// The indicators that a text begins with: at most one digit and at most one sign.
fn indicators(text: Characters) -> Characters
    ensures value { all_of result ≡ spec.indicators (all_of text.entry) }
    ensures within { length (all_of result) ≤ length (all_of text.entry) }
{
    text.front(indicators_len(text))
}

fn indicators_len(text: Characters) -> usize
    ensures value { result ≡ length (spec.indicators (all_of text.entry)) }
    ensures within { result ≤ length (all_of text.entry) }
{
    let mut rest = text;
    match (rest.next(), rest.next()) {
        (Some(a), Some(b)) if is_digit(a) && is_sign(b) || is_sign(a) && is_digit(b) => 2,
        (Some(a), _) if is_digit(a) || is_sign(a) => 1,
        _ => 0,
    }
}

/// The number that the digit among indicators says.
fn digit_of(marks: Characters) -> Option<u32>
    ensures value { result ≡ spec.digit (all_of marks.entry) }
    ensures small { IfSome result (λ n. n < 10) }
{
    let mut rest = marks;
    while let Some(mark) = rest.next() {
        if is_digit(mark) {
            return Some(mark as u32 - '0' as u32);
        }
    }
    None
}

/// What the sign among indicators says.
fn chomping_of(marks: Characters) -> Chomping
    ensures { result ≡ spec.chomping (all_of marks.entry) }
{
    let mut rest = marks;
    while let Some(mark) = rest.next() {
        if mark == '-' {
            return Chomping::Strip;
        }
        if mark == '+' {
            return Chomping::Keep;
        }
    }
    Chomping::Clip
}
