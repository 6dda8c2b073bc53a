ghost use Rattle.std.specs.Prelude.{◌≡◌, ◌+◌, ◌<◌, ◌^◌, ◌==◌, [], ◌∷◌, length, drop, chars};
ghost use Rattle.std.specs.Prelude.{MatchOption};
ghost use Rattle.std.specs.List.{slice_split, position_or_len};
ghost use Rattle.pl_line.specs.Characters.{all_of};
ghost use Rattle.pl_line.specs.Rows as spec;
ghost use Rattle.pl_line.specs.Lines.{IsFirst, row};

use crate::characters::Characters;
use crate::first_line::FirstLine;
use crate::line::Line;
use crate::scan::{is_control, spaces_len};
use crate::tail::Tail;
use std::marker::Model;

/// The lines of a text that are still to be read.
#[derive(Drop)]
pub struct Rows<'t> {
    rest: Option<&'t str>,
    number: u32,
}

impl<'t> Model for Rows<'t> {
    ghost use Rattle.std.specs.Prelude.{List as list, ℕ, ◌==◌, ◌+◌, ◌<◌, ◌^◌, [], length, chars};
    ghost use Rattle.std.specs.Prelude.{IfSome};
    ghost use Rattle.std.specs.Option.{option_map_or};
    ghost use Rattle.std.specs.List.{slice_split};
    ghost use Rattle.pl_line.specs.Rows.{Row, rows_from};

    ghost Value = { list Row };

    ghost view = { λ rows. option_map_or
        (λ rest. rows_from rows.number (slice_split (λ c. c == 10) (chars rest.now))) rows.rest [] };

    ghost invariant = { λ rows. IfSome rows.rest
        (λ rest. rows.number + length (chars rest.now) + 1 < 2 ^ 32) };
}

impl<'t> Rows<'t> {
    /// The lines of a text.
    pub fn of(text: &'t str) -> Rows<'t>
        requires { length (chars text.now) + 2 < 2 ^ 32 }
        ensures { result ≡ spec.rows_from 1 (slice_split (λ c. c == 10) (chars text.now)) }
    {
        Rows {
            rest: Some(text),
            number: 1,
        }
    }

    /// The same lines once more, to look ahead in.
    pub fn copy(&self) -> Rows<'t>
        ensures { result ≡ self.now }
    {
        Rows {
            rest: self.rest,
            number: self.number,
        }
    }

    /// Whether no line is left.
    pub fn is_done(&self) -> bool
        ensures { result ≡ length self.now == 0 }
    {
        match self.rest {
            Some(_) => false,
            None => true,
        }
    }

    /// Takes the first line off, or None where no line is left.
    pub fn next(&mut self) -> Option<Line<'t>>
        ensures { MatchOption result ((self.old ≡ []) × (self.new ≡ [])) (λ line. self.old ≡
            row line ∷ self.new) }
    {
        let rest = self.rest?;
        let number = self.number;
        match first_line(rest) {
            FirstLine::Broken(front, whole, behind) => {
                self.rest = Some(behind);
                self.number = number + 1;
                Some(line_at(number, front, whole))
            }
            FirstLine::Last(front, whole) => {
                self.rest = None;
                Some(line_at(number, front, whole))
            }
        }
    }
}

/// Goes behind a text's first control character: how many characters stand before it, and which one
/// it is.
fn to_control(rest: &mut Tail) -> (usize, Option<char>)
    requires { length (chars rest.old.text.now) < 2 ^ 32 }
    ensures count { result.0 ≡ position_or_len spec.is_control (chars rest.old.text.now) }
    ensures left { MatchOption result.1 (drop result.0 (chars rest.old.text.now) ≡ [])
        (λ c. drop result.0 (chars rest.old.text.now) ≡ c ∷ chars rest.new.text.now) }
{
    let mut count = 0;
    while let Some(c) = rest.next() {
        if is_control(c) {
            return (count, Some(c));
        }
        count += 1;
    }
    (count, None)
}

/// Cuts a text behind its first line.
fn first_line(text: &str) -> FirstLine
    requires { length (chars text.now) < 2 ^ 32 }
    ensures { IsFirst (chars text.now) result }
{
    let mut rest = Tail { text };
    let (readable, control) = to_control(&mut rest);
    let front = Characters {
        text,
        len: readable,
    };
    let Some(control) = control else {
        return FirstLine::Last(front, true);
    };
    if control == '\n' {
        return FirstLine::Broken(front, true, rest.text);
    }
    let mut len = readable + 1;
    let mut returned = control == '\r';
    while let Some(c) = rest.next() {
        if c == '\n' {
            let whole = returned && len == readable + 1;
            return FirstLine::Broken(front, whole, rest.text);
        }
        returned = c == '\r';
        len += 1;
    }
    FirstLine::Last(front, false)
}

/// What can be read of a line, as a line.
fn line_at(number: u32, front: Characters, whole: bool) -> Line
    requires { length (all_of front) + 1 < 2 ^ 32 }
    ensures { row result ≡ spec.indented number (all_of front.entry) whole }
{
    let spaces = spaces_len(front);
    Line {
        number,
        column: spaces as u32 + 1,
        text: front.behind(spaces),
        whole,
    }
}

/// A text without the byte order mark at its start, where one stands there.
pub fn without_mark(text: &str) -> &str
    ensures { chars result.now ≡ spec.without_mark (chars text.now) }
{
    let mut rest = Tail { text };
    match rest.next() {
        Some('\u{feff}') => rest.text,
        _ => text,
    }
}
