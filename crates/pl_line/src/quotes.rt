ghost use Rattle.std.specs.Prelude.{◌≡◌, ◌≤◌, [], length, IfOk};
ghost use Rattle.pl_line.specs.Characters.{all_of};
ghost use Rattle.pl_line.specs.Lines.{row};
ghost use Rattle.pl_line.specs.Gives.{Gives};
ghost use Rattle.pl_line.specs.Quoted as spec;

use crate::characters::Characters;
use crate::code::YamlCode;
use crate::escapes::escape;
use crate::found::Quoted;
use crate::left::{end_code, fault_at, fault_behind};
use crate::line::Line;
use crate::line_fault::ReadFault;
use crate::piece::{Piece, Style};
use crate::scan::begins_with;
use pl_base::Text;
use std::alloc::Global;

/// What stands next in a single-quoted scalar.
#[tactic(auto, unfolding(crate::specs::Quoted::single))]
fn single(text: Characters) -> Piece
    ensures value { result ≡ spec.single (all_of text.entry) }
    ensures within { spec.Takes (length (all_of text.entry)) result }
{
    let mut rest = text;
    match rest.next() {
        Some('\'') if begins_with('\'', rest) => Piece::Character('\'', 2),
        Some('\'') => Piece::Close,
        Some(c) => Piece::Character(c, 1),
        None => Piece::Open,
    }
}

/// What stands next in a double-quoted scalar.
#[tactic(auto, unfolding(crate::specs::Quoted::double))]
fn double(text: Characters) -> Piece
    ensures value { result ≡ spec.double (all_of text.entry) }
    ensures within { spec.Takes (length (all_of text.entry)) result }
{
    let mut rest = text;
    match rest.next() {
        Some('"') => Piece::Close,
        Some('\\') => escape(rest),
        Some(c) => Piece::Character(c, 1),
        None => Piece::Open,
    }
}

/// What stands next in a quoted scalar.
fn piece(style: Style, text: Characters) -> Piece
    ensures value { result ≡ spec.piece style (all_of text.entry) }
    ensures within { spec.Takes (length (all_of text.entry)) result }
{
    match style {
        Style::Single => single(text),
        Style::Double => double(text),
    }
}

/// Whether a character may be more than itself in a quoted scalar.
fn is_special(character: char) -> bool
    ensures { result ≡ spec.is_special character }
{
    matches!(character, '\'' | '"' | '\\')
}

/// Takes off what stands next in a quoted scalar.
fn take_piece(style: Style, rest: &mut Characters) -> Piece
    ensures value { result ≡ spec.piece style (all_of rest.old) }
    ensures within { spec.Takes (length (all_of rest.old)) result }
    ensures left { spec.Leaves (all_of rest.old) (all_of rest.new) result }
{
    let text = *rest;
    match rest.next() {
        Some(c) if !is_special(c) => Piece::Character(c, 1),
        _ => {
            let found = piece(style, text);
            if let Piece::Character(_, taken) = found {
                *rest = text.behind(taken);
            }
            found
        }
    }
}

/// Reads the quoted scalar whose opening quote a line begins with.
fn pieces(alloc: Global, style: Style, line: &Line) -> Result<Quoted, ReadFault>
    requires { 1 ≤ length (all_of line.now.text) }
    ensures gives { Gives (λ read. (read.text, read.len)) result
        (spec.pieces_of style (row line.now) (length (all_of line.now.text)) [] 1) }
    ensures within { IfOk result (λ read. (2 ≤ read.len) ×
        (read.len ≤ length (all_of line.now.text))) }
{
    let mut text = String::new(alloc);
    let mut rest = line.text.behind(1);
    let mut len = 1;
    loop {
        match take_piece(style, &mut rest) {
            Piece::Character(character, taken) => {
                text.push(character)?;
                len += taken;
            }
            Piece::Close => {
                return Ok(Quoted {
                    text: Text::from_string(text),
                    len: len + 1,
                });
            }
            Piece::BadEscape => return Err(fault_behind(YamlCode::BadEscape, len, line)),
            Piece::Open => return Err(fault_behind(end_code(line), line.text.len(), line)),
        }
    }
}

/// Reads the quoted scalar that a line begins with: in single quotes, two quotes are one; in double
/// quotes, a backslash begins an escape (YAML 1.2.2, sections 5.7, 7.3.1 and 7.3.2).
///
/// The first fault from left to right: BadEscape at a backslash that begins no escape, Unclosed at
/// the line's end, NoEntry at a character that no text may have, and NoEntry at the line's column
/// where it begins with no quote.
#[tactic(auto, unfolding(crate::specs::Quoted::quoted))]
pub fn quoted(alloc: Global, line: &Line) -> Result<Quoted, ReadFault>
    ensures gives { Gives (λ read. (read.text, read.len)) result (spec.quoted (row line.now)) }
    ensures within { IfOk result (λ read. (2 ≤ read.len) ×
        (read.len ≤ length (all_of line.now.text))) }
{
    match line.text.first() {
        Some('\'') => pieces(alloc, Style::Single, line),
        Some('"') => pieces(alloc, Style::Double, line),
        _ => Err(fault_at(YamlCode::NoEntry, line)),
    }
}
