ghost use Rattle.std.specs.Prelude.{◌≡◌, ◌+◌, ◌≤◌, ◌||◌, take, length, IfOk, OnOk};
ghost use Rattle.pl_line.specs.Characters.{all_of};
ghost use Rattle.pl_line.specs.Left as left;
ghost use Rattle.pl_line.specs.Rows.{size};
ghost use Rattle.pl_line.specs.Lines.{row};
ghost use Rattle.pl_line.specs.Gives.{Gives};
ghost use Rattle.pl_yaml.specs.BlockScalars as spec;

use crate::block_lines::BlockLines;
use crate::block_text::block_text;
use crate::header::header_of;
use crate::heads::{closed, is_marker};
use crate::reader::Reader;
use pl_base::{FileKey, Memory, Node, NodeBody, Shared};
use pl_line::{Line, ReadFault, YamlCode, fault_at, is_bare, line_end, node_at};
use std::alloc::Global;

/// The column of the first line that isn't blank, or 0 where there is none.
#[tactic(auto, unfolding(crate::specs::BlockScalars::first_column))]
fn first_column(mut ahead: Reader) -> u32
    ensures { result ≡ spec.first_column ahead.entry }
{
    while let Some(line) = ahead.first() {
        if !is_bare(&line) {
            return line.column;
        }
        ahead.advance();
    }
    0
}

/// Refuses a blank line that goes past a column, before the first line that isn't blank.
#[tactic(auto, unfolding(crate::specs::BlockScalars::within_column))]
fn within_column(column: u32, mut ahead: Reader) -> Result<(), ReadFault>
    ensures { Gives (λ done. done) result (spec.within_column column ahead.entry) }
{
    while let Some(line) = ahead.first() {
        if !is_bare(&line) {
            return Ok(());
        }
        if column < line.column {
            return Err(fault_at(YamlCode::BadIndent, &line));
        }
        ahead.advance();
    }
    Ok(())
}

/// The column at which a block scalar's content begins, held by a block of that column; None where
/// it has no content.
fn content_column(
    parent: u32,
    digit: Option<u32>,
    reader: &Reader,
) -> Result<Option<u64>, ReadFault>
    ensures { Gives (λ column. column) result (spec.content_column parent digit reader.now) }
{
    if let Some(digit) = digit {
        return Ok(Some(u64::from(parent.max(1)) + u64::from(digit)));
    }
    let column = first_column(reader.copy());
    if column <= parent {
        return Ok(None);
    }
    within_column(column, reader.copy())?;
    Ok(Some(u64::from(column)))
}

/// Whether a line has at least the content's indentation.
fn reaches(column: Option<u64>, line: &Line) -> bool
    ensures { result ≡ spec.reaches column (row line.now) }
{
    match column {
        Some(column) => column <= u64::from(line.column),
        None => false,
    }
}

/// Refuses a marker of documents in a block scalar, and reads the line to its end.
fn inside(line: &Line) -> Result<(), ReadFault>
    ensures { Gives (λ done. done) result (spec.inside (row line.now)) }
{
    if is_marker(line) {
        return Err(fault_at(YamlCode::Documents, line));
    }
    line_end(line)
}

/// Whether a line belongs to a block scalar.
fn belongs(column: Option<u64>, line: &Line) -> bool
    ensures { result ≡ (left.is_bare (row line.now) || spec.reaches column (row line.now)) }
{
    is_bare(line) || reaches(column, line)
}

/// The next number. More lines than a `usize` counts are more than memory holds.
fn one_more(count: usize) -> Result<usize, Memory>
    ensures { IfOk result (λ next. next ≡ count + 1) }
{
    count.checked_add(1).ok_or(Memory)
}

/// Reads the lines of a block scalar, up to the first other line, and counts them.
#[tactic(auto, unfolding(crate::specs::BlockScalars::lines))]
fn lines(column: Option<u64>, reader: &mut Reader) -> Result<usize, ReadFault>
    ensures gives { Gives (λ count. (take count (spec.text_lines column reader.old), reader.new))
        result (spec.lines column reader.old) }
    ensures falls { OnOk result (size reader.new ≤ size reader.old) }
    ensures within { IfOk result (λ count. count ≤ length reader.old) }
{
    let mut count = 0;
    while let Some(line) = reader.first() {
        if !belongs(column, &line) {
            return Ok(count);
        }
        inside(&line)?;
        reader.advance();
        count = one_more(count)?;
    }
    Ok(count)
}

/// Reads the block scalar that begins at a line, which was taken off, held by a block of that
/// column.
#[tactic(auto, unfolding(crate::specs::BlockScalars::block))]
pub(crate) fn block(
    alloc: Global,
    file: &Shared<FileKey>,
    parent: u32,
    line: &Line,
    reader: &mut Reader,
) -> Result<Node, ReadFault>
    requires { 1 ≤ length (all_of line.now.text) }
    ensures gives { Gives (λ node. (node, reader.new)) result
        (spec.block file.now parent (row line.now) reader.old) }
    ensures falls { OnOk result (size reader.new ≤ size reader.old) }
{
    let header = header_of(line);
    closed(line, header.len)?;
    let column = content_column(parent, header.digit, reader)?;
    let start = reader.copy();
    let count = lines(column, reader)?;
    let all = BlockLines::of(column, start, count);
    let text = block_text(alloc, header.folded, header.chomping, all)?;
    let body = NodeBody::Scalar(text);
    let node = node_at(alloc, file, line, body)?;
    Ok(node)
}
