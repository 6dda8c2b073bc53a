ghost use Rattle.std.specs.Prelude.{◌≡◌, ◌≤◌, ◌-◌, ◌++◌, length, IfOk, OnOk, encode_utf8_all};
ghost use Rattle.std.specs.Prelude.{string_bytes};
ghost use Rattle.pl_line.specs.Characters.{all_of};
ghost use Rattle.pl_line.specs.Rows.{size};
ghost use Rattle.pl_line.specs.Lines.{row};
ghost use Rattle.pl_line.specs.Gives.{Gives};
ghost use Rattle.pl_yaml.specs.Plain as spec;

use crate::heads::stands;
use crate::push::push_times;
use crate::reader::Reader;
use pl_base::{FileKey, Node, NodeBody, Shared, Text};
use pl_line::{
    Line, ReadFault, YamlCode, content, fault_behind, is_bare, is_comment, line_end, node_at,
    plain_len, stands_at,
};
use std::alloc::{AllocError, Global};

/// Adds the first so many of a line's characters to a text, without the blanks behind them.
pub(crate) fn push_part(text: &mut String, len: usize, line: &Line) -> Result<(), AllocError>
    requires { len ≤ length (all_of line.now.text) }
    ensures { OnOk result (string_bytes text.new ≡ string_bytes text.old ++
        encode_utf8_all (spec.part len (row line.now))) }
{
    text.push_str(content(line.text, len))
}

/// How many characters of a line continue a plain scalar.
fn continued(line: &Line) -> Result<usize, ReadFault>
    ensures gives { Gives (λ len. len) result (spec.continued (row line.now)) }
    ensures within { IfOk result (λ len. len ≤ length (all_of line.now.text)) }
{
    let len = plain_len(line.text, line.whole);
    if stands_at(':', len, line.text) {
        return Err(fault_behind(YamlCode::NoEntry, len, line));
    }
    line_end(line)?;
    Ok(len)
}

/// Adds the breaks between a plain scalar's line of that number and a line that continues it.
fn push_folded(text: &mut String, last: u32, line: &Line) -> Result<(), AllocError>
    ensures { OnOk result (string_bytes text.new ≡ string_bytes text.old ++
        encode_utf8_all (spec.folded (line.now.number - last - 1))) }
{
    let empty = line.number.saturating_sub(last).saturating_sub(1);
    if empty == 0 {
        push_times(text, ' ', 1)
    } else {
        push_times(text, '\n', empty)
    }
}

/// Adds to a plain scalar, which is held by a block of this column, what the lines behind its line
/// of that number add.
#[tactic(auto, unfolding(crate::specs::Plain::further), using(crate::proofs::Laws::Content::size_drop))]
fn further(parent: u32, last: u32, text: &mut String, reader: &mut Reader) -> Result<(), ReadFault>
    ensures gives { Gives (λ _. (string_bytes text.new, reader.new)) result
        (spec.behind_bytes (string_bytes text.old) (spec.further parent last reader.old)) }
    ensures falls { OnOk result (size reader.new ≤ size reader.old) }
{
    let mut last = last;
    while let Some(line) = reader.first() {
        if is_bare(&line) {
            reader.advance();
            continue;
        }
        if is_comment(&line) {
            return Ok(());
        }
        stands(&line)?;
        if line.column <= parent {
            return Ok(());
        }
        let len = continued(&line)?;
        push_folded(text, last, &line)?;
        push_part(text, len, &line)?;
        reader.advance();
        if len < line.text.len() {
            return Ok(());
        }
        last = line.number;
    }
    Ok(())
}

/// Adds to a plain scalar what the lines behind its first line add, unless a comment ends it there.
fn behind_line(
    parent: u32,
    line: &Line,
    len: usize,
    text: &mut String,
    reader: &mut Reader,
) -> Result<(), ReadFault>
    ensures gives { Gives (λ _. (string_bytes text.new, reader.new)) result
        (spec.behind_bytes (string_bytes text.old) (spec.behind_line parent (row line.now) len
        reader.old)) }
    ensures falls { OnOk result (size reader.new ≤ size reader.old) }
{
    if line.text.len() == len {
        further(parent, line.number, text, reader)
    } else {
        Ok(())
    }
}

/// Reads a plain scalar of so many characters, held by a block of this column; its line was taken
/// off.
pub(crate) fn word(
    alloc: Global,
    file: &Shared<FileKey>,
    parent: u32,
    line: &Line,
    len: usize,
    reader: &mut Reader,
) -> Result<Node, ReadFault>
    requires { len ≤ length (all_of line.now.text) }
    ensures gives { Gives (λ node. (node, reader.new)) result
        (spec.word file.now parent (row line.now) len reader.old) }
    ensures falls { OnOk result (size reader.new ≤ size reader.old) }
{
    line_end(line)?;
    let mut text = String::new(alloc);
    push_part(&mut text, len, line)?;
    behind_line(parent, line, len, &mut text, reader)?;
    let body = NodeBody::Scalar(Text::from_string(text));
    let node = node_at(alloc, file, line, body)?;
    Ok(node)
}
