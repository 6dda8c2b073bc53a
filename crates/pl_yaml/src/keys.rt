ghost use Rattle.std.specs.Prelude.{◌≡◌, ◌+◌, ◌≤◌, length, IfOk, IfSome, IsTrue, OnOk};
ghost use Rattle.std.specs.Option.{option_map};
ghost use Rattle.pl_line.specs.declared.line_fault.ReadFault.TheVariants.{Refused};
ghost use Rattle.pl_line.specs.Characters.{all_of};
ghost use Rattle.pl_line.specs.Rows.{size};
ghost use Rattle.pl_line.specs.Lines.{row};
ghost use Rattle.pl_line.specs.Gives.{Gives};
ghost use Rattle.pl_yaml.specs.Heads.{head_of};
ghost use Rattle.pl_yaml.specs.Reading.{IsFirst};
ghost use Rattle.pl_yaml.specs.Keys as spec;

use crate::content::to_content;
use crate::head::Head;
use crate::heads::{head_of, refusal};
use crate::key::Key;
use crate::reader::Reader;
use pl_base::{FileKey, Memory, Shared};
use pl_line::{
    Line, ReadFault, YamlCode, begins_with, behind, ends_word, fault_at, fault_behind, flow, plain,
    quoted,
};
use std::alloc::Global;

/// Whether a mapping's `:` stands at a line's column.
pub(crate) fn is_colon(line: &Line) -> bool
    ensures value { result ≡ spec.is_colon (row line.now) }
    ensures within { IsTrue result → 1 ≤ length (all_of line.now.text) }
{
    let mut rest = line.text;
    match rest.next() {
        Some(':') => ends_word(rest, line.whole),
        _ => false,
    }
}

/// A plain scalar of so many characters, as a key.
fn plain_key<'t>(alloc: Global, line: &Line<'t>, len: usize) -> Result<Key<'t>, Memory>
    requires { len + 1 ≤ length (all_of line.now.text) }
    ensures { IfOk result (λ key. spec.found_key key ≡ spec.plain_key (row line.now) len) }
{
    let text = plain(alloc, len, line)?;
    Ok(Key {
        start: *line,
        text,
        left: behind(line, len + 1),
    })
}

/// Reads a quoted scalar as a key.
fn quoted_key<'t>(alloc: Global, line: &Line<'t>) -> Result<Key<'t>, ReadFault>
    ensures { Gives spec.found_key result (spec.in_quotes (row line.now)) }
{
    let read = quoted(alloc, line)?;
    let rest = behind(line, read.len);
    if !is_colon(&rest) {
        return Err(fault_at(YamlCode::NoEntry, &rest));
    }
    Ok(Key {
        start: *line,
        text: read.text,
        left: behind(&rest, 1),
    })
}

/// What follows a flow collection in a key's place.
fn no_key(rest: &Line) -> ReadFault
    ensures { result ≡ Refused (spec.no_key (row rest.now)) }
{
    if begins_with(':', rest.text) {
        fault_at(YamlCode::ComplexKey, rest)
    } else {
        fault_at(YamlCode::NoEntry, rest)
    }
}

/// Reads the key that begins at a line, where so many collections may still open.
fn key_at<'t>(
    alloc: Global,
    file: &Shared<FileKey>,
    depth: u32,
    line: &Line<'t>,
) -> Result<Key<'t>, ReadFault>
    ensures gives { Gives spec.found_key result (spec.key_by file.now depth (row line.now)
        (head_of (row line.now))) }
    ensures start { IfOk result (λ key. row key.start ≡ row line.now) }
{
    match head_of(line) {
        Head::Key(len) => Ok(plain_key(alloc, line, len)?),
        Head::Word(len) => Err(fault_behind(YamlCode::NoEntry, len, line)),
        Head::Quote => quoted_key(alloc, line),
        Head::Flow => {
            let read = flow(alloc, file, depth, line)?;
            Err(no_key(&behind(line, read.len)))
        }
        head => Err(fault_at(refusal(head), line)),
    }
}

/// Goes to the next key of a mapping at this column, in which so many collections may still open.
#[tactic(auto, unfolding(crate::specs::Keys::next_key))]
pub(crate) fn next_key<'t>(
    alloc: Global,
    file: &Shared<FileKey>,
    depth: u32,
    column: u32,
    reader: &mut Reader<'t>,
) -> Result<Option<Key<'t>>, ReadFault>
    ensures gives { Gives (λ found. (option_map spec.found_key found, reader.new)) result
        (spec.next_key file.now depth column reader.old) }
    ensures falls { OnOk result (size reader.new ≤ size reader.old) }
    ensures first { IfOk result
        (λ found. IfSome found (λ key. IsFirst (row key.start) reader.new)) }
{
    to_content(reader)?;
    let Some(line) = reader.first() else {
        return Ok(None);
    };
    if line.column < column {
        return Ok(None);
    }
    if column < line.column {
        return Err(fault_at(YamlCode::BadIndent, &line));
    }
    let key = key_at(alloc, file, depth, &line)?;
    Ok(Some(key))
}
