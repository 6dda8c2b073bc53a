ghost use Rattle.std.specs.Prelude.{◌≡◌, ◌+◌, ◌≤◌, length};
ghost use Rattle.pl_line.specs.declared.line_fault.ReadFault.TheVariants.{Refused};
ghost use Rattle.pl_line.specs.Characters.{all_of};
ghost use Rattle.pl_line.specs.Lines.{row};
ghost use Rattle.pl_line.specs.Reading as reading;
ghost use Rattle.pl_line.specs.Gives.{Gives};
ghost use Rattle.pl_line.specs.Left as spec;

use crate::code::YamlCode;
use crate::line::Line;
use crate::line_fault::{Fault, ReadFault};
use crate::scan::{begins_with, blanks_len, is_blank, spaces_len};

/// What is left of a line behind so many characters and the blanks after them.
#[tactic(auto, unfolding(crate::specs::Left::behind))]
pub fn behind<'t>(line: &Line<'t>, len: usize) -> Line<'t>
    requires { len ≤ length (all_of line.now.text) }
    ensures value { row result ≡ spec.behind len (row line.now) }
    ensures shorter { length (all_of result.text) + len ≤ length (all_of line.now.text) }
{
    let rest = line.text.behind(len);
    let blanks = blanks_len(rest);
    Line {
        number: line.number,
        column: line.column + (len + blanks) as u32,
        text: rest.behind(blanks),
        whole: line.whole,
    }
}

/// Goes over so many characters of a line and the blanks behind them.
pub fn advance(line: &mut Line, len: usize)
    requires { len ≤ length (all_of line.old.text) }
    ensures value { row line.new ≡ spec.behind len (row line.old) }
    ensures shorter { length (all_of line.new.text) + len ≤ length (all_of line.old.text) }
{
    *line = behind(line, len);
}

/// Whether no tab stands among the blanks behind so many characters.
pub fn spaces_only(line: &Line, len: usize) -> bool
    requires { len ≤ length (all_of line.now.text) }
    ensures { result ≡ spec.spaces_only len (row line.now) }
{
    let rest = line.text.behind(len);
    spaces_len(rest) == blanks_len(rest)
}

/// Whether a line, whose blanks were passed over, has no content there.
pub fn is_done(line: &Line) -> bool
    ensures { result ≡ spec.is_done (row line.now) }
{
    line.text.is_empty() || begins_with('#', line.text)
}

/// A fault at a line's column.
pub fn fault_at(code: YamlCode, line: &Line) -> ReadFault
    ensures { result ≡ Refused (reading.fault_at code (row line.now)) }
{
    ReadFault::Refused(Fault {
        code,
        line: line.number,
        column: line.column,
    })
}

/// A fault behind so many of a line's characters.
pub fn fault_behind(code: YamlCode, len: usize, line: &Line) -> ReadFault
    requires { len ≤ length (all_of line.now.text) }
    ensures { result ≡ Refused (reading.fault_behind code len (row line.now)) }
{
    ReadFault::Refused(Fault {
        code,
        line: line.number,
        column: line.column + len as u32,
    })
}

/// Reads a line to its end: NoEntry where a character stands there that no text may have.
pub fn line_end(line: &Line) -> Result<(), ReadFault>
    ensures { Gives (λ done. done) result (spec.line_end (row line.now)) }
{
    if line.whole {
        Ok(())
    } else {
        Err(fault_behind(YamlCode::NoEntry, line.text.len(), line))
    }
}

/// Why something isn't closed at the end of what can be read of a line: Unclosed at the line's end,
/// NoEntry before a character that no text may have.
pub fn end_code(line: &Line) -> YamlCode
    ensures { result ≡ spec.end_code line.now.whole }
{
    if line.whole {
        YamlCode::Unclosed
    } else {
        YamlCode::NoEntry
    }
}

/// Whether blanks alone are left of a line, up to its end.
pub fn is_bare(line: &Line) -> bool
    ensures { result ≡ spec.is_bare (row line.now) }
{
    match line.text.first() {
        Some(first) if !is_blank(first) => false,
        Some(_) => behind(line, 0).text.is_empty() && line.whole,
        None => line.whole,
    }
}

/// Whether a comment is left of a line, behind blanks.
pub fn is_comment(line: &Line) -> bool
    ensures { result ≡ spec.is_comment (row line.now) }
{
    match line.text.first() {
        Some(first) if !is_blank(first) => first == '#',
        _ => begins_with('#', behind(line, 0).text),
    }
}

/// Whether no content is left of a line.
pub fn is_empty(line: &Line) -> bool
    ensures { result ≡ spec.is_empty (row line.now) }
{
    match line.text.first() {
        Some(first) if !is_blank(first) => first == '#',
        _ => is_bare(line) || is_comment(line),
    }
}
