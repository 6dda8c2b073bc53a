ghost use Rattle.std.specs.Prelude.{◌≡◌, ℕ, ◌-◌, ◌*◌, ◌<◌, ◌≤◌, length, IfOk, IfSome, OnOk};
ghost use Rattle.std.specs.Option.{option_map};
ghost use Rattle.pl_line.specs.Characters.{all_of};
ghost use Rattle.pl_line.specs.Rows.{size};
ghost use Rattle.pl_line.specs.Lines.{row};
ghost use Rattle.pl_line.specs.Gives.{Gives};
ghost use Rattle.pl_yaml.specs.Reading.{IsFirst};
ghost use Rattle.pl_yaml.specs.Keys.{found_key};
ghost use Rattle.pl_yaml.specs.Nodes as spec;
ghost use Rattle.pl_yaml.specs.Stack as stack;
ghost use Rattle.pl_yaml.specs.Stack.{Leads};
ghost use Rattle.pl_yaml.specs.declared.stack.Open.TheVariants as opens;

use crate::content::to_content;
use crate::head::Head;
use crate::heads::head_of;
use crate::inline::inline;
use crate::key::Key;
use crate::keys::next_key;
use crate::reader::Reader;
use crate::slot::Slot;
use crate::stack::{Found, Mapping, Open, Sequence, Start};
use pl_base::{FileKey, Shared};
use pl_line::{Line, Pairs, ReadFault, YamlCode, behind, fault_at, is_done, line_end, spaces_only};
use std::alloc::Global;

/// Goes to the next entry of a sequence at this column, held by a block of that other column.
#[tactic(auto, unfolding(crate::specs::Nodes::next_item))]
fn next_item<'t>(
    parent: u32,
    column: u32,
    reader: &mut Reader<'t>,
) -> Result<Option<Line<'t>>, ReadFault>
    ensures gives { Gives (λ found. (option_map row found, reader.new)) result
        (spec.next_item parent column reader.old) }
    ensures falls { OnOk result (size reader.new ≤ size reader.old) }
    ensures first { IfOk result (λ found. IfSome found (λ line. IsFirst (row line) reader.new ×
        (1 ≤ length (all_of line.text)))) }
{
    to_content(reader)?;
    let Some(line) = reader.first() else {
        return Ok(None);
    };
    if line.column < column {
        return Ok(None);
    }
    if column < line.column {
        return Err(fault_at(YamlCode::BadIndent, &line));
    }
    match head_of(&line) {
        Head::Dash => Ok(Some(line)),
        _ if parent == column => Ok(None),
        _ => Err(fault_at(YamlCode::NoEntry, &line)),
    }
}

/// Where a line's column is.
pub(crate) fn start_of(line: &Line) -> Start
    ensures { result ≡ stack.start_of (row line.now) }
{
    Start {
        line: line.number,
        column: line.column,
    }
}

/// Where the value of a key or a dash stands.
fn below(own: bool, line: &Line) -> Slot
    ensures { result ≡ spec.below own (row line.now) }
{
    Slot {
        line: line.number,
        column: line.column,
        parent: line.column,
        own,
    }
}

/// Reads the value that stands there, if it stands on the line of its key or dash.
#[tactic(auto, unfolding(crate::specs::Nodes::value))]
fn value(
    alloc: Global,
    file: &Shared<FileKey>,
    depth: u32,
    slot: Slot,
    line: &Line,
    reader: &mut Reader,
) -> Result<Found, ReadFault>
    ensures gives { Leads (λ found. stack.found file.now found reader.new) result
        (spec.value file.now (spec.values_at file.now depth) slot (row line.now) reader.old) }
    ensures falls { OnOk result (size reader.new ≤ size reader.old) }
{
    if is_done(line) {
        line_end(line)?;
        return Ok(Found::Below(depth, slot));
    }
    let node = inline(alloc, file, depth, slot.parent, line, reader)?;
    Ok(Found::Here(node))
}

/// Goes behind the dash that stands first, and reads its value if it stands on that line.
#[tactic(auto, unfolding(crate::specs::Nodes::item))]
fn item<'t>(
    alloc: Global,
    file: &Shared<FileKey>,
    depth: u32,
    line: &Line<'t>,
    reader: &mut Reader<'t>,
) -> Result<Found, ReadFault>
    requires first { IsFirst (row line.now) reader.old }
    requires dash { 1 ≤ length (all_of line.now.text) }
    ensures gives { Leads (λ found. stack.found file.now found reader.new) result
        (spec.item file.now (spec.values_at file.now depth) (row line.now) reader.old) }
    ensures falls { OnOk result (size reader.new < size reader.old) }
{
    let rest = behind(line, 1);
    if !is_done(&rest) && spaces_only(line, 1) {
        reader.replace(rest);
        return Ok(Found::Below(depth, below(false, line)));
    }
    reader.advance();
    value(alloc, file, depth, below(false, line), &rest, reader)
}

/// Goes behind the key that stands first, and reads its value if it stands on that line.
#[tactic(auto, unfolding(crate::specs::Nodes::pair))]
fn pair(
    alloc: Global,
    file: &Shared<FileKey>,
    depth: u32,
    before: &Pairs,
    key: &Key,
    reader: &mut Reader,
) -> Result<Found, ReadFault>
    requires { IsFirst (row key.now.start) reader.old }
    ensures gives { Leads (λ found. stack.paired file.now key.now
        (stack.found file.now found reader.new)) result
        (spec.pair file.now (spec.values_at file.now depth) before.now.pairs (found_key key.now)
        reader.old) }
    ensures falls { OnOk result (size reader.new < size reader.old) }
{
    if before.is_doubled(&key.text) {
        return Err(fault_at(YamlCode::DuplicateKey, &key.start));
    }
    reader.advance();
    let slot = below(true, &key.start);
    value(alloc, file, depth, slot, &key.left, reader)
}

/// Goes to the next item of a sequence, or says that no more follow.
fn next_of_sequence(
    alloc: Global,
    file: &Shared<FileKey>,
    sequence: &Sequence,
    reader: &mut Reader,
) -> Result<Option<Found>, ReadFault>
    ensures gives { (turns : ℕ) → 0 < turns →
        Leads (λ next. stack.goes file.now (turns - 1) (opens.Sequence sequence.now) next
        reader.new) result (stack.in_sequence file.now turns sequence.now reader.old) }
    ensures falls { IfOk result (λ next. stack.Falls next reader.old reader.new) }
{
    let Some(line) = next_item(sequence.parent, sequence.start.column, reader)? else {
        return Ok(None);
    };
    let found = item(alloc, file, sequence.depth, &line, reader)?;
    Ok(Some(found))
}

/// Goes to the next pair of a mapping, and keeps its key, or says that no more follow.
fn next_of_mapping(
    alloc: Global,
    file: &Shared<FileKey>,
    mapping: &mut Mapping,
    reader: &mut Reader,
) -> Result<Option<Found>, ReadFault>
    ensures gives { (turns : ℕ) → 0 < turns →
        Leads (λ next. stack.goes file.now (turns - 1) (opens.Mapping mapping.new) next reader.new)
        result (stack.in_mapping file.now turns mapping.old reader.old) }
    ensures falls { IfOk result (λ next. stack.Falls next reader.old reader.new) }
{
    let depth = mapping.depth;
    let Some(key) = next_key(alloc, file, depth, mapping.start.column, reader)? else {
        return Ok(None);
    };
    let found = pair(alloc, file, depth, &mapping.pairs, &key, reader)?;
    mapping.key_start = start_of(&key.start);
    mapping.key = key.text;
    Ok(Some(found))
}

impl Open {
    /// Goes to the next entry, and reads its value if that stands on the entry's line; None where
    /// no more follow.
    pub(crate) fn next(
        &mut self,
        alloc: Global,
        file: &Shared<FileKey>,
        reader: &mut Reader,
    ) -> Result<Option<Found>, ReadFault>
        ensures gives { (turns : ℕ) → 0 < turns →
            Leads (λ next. stack.goes file.now (turns - 1) self.new next reader.new) result
            (stack.in_open file.now turns self.old reader.old) }
        ensures falls { IfOk result (λ next. stack.Falls next reader.old reader.new) }
    {
        match self {
            Open::Sequence(sequence) => next_of_sequence(alloc, file, sequence, reader),
            Open::Mapping(mapping) => next_of_mapping(alloc, file, mapping, reader),
        }
    }
}
