ghost use Rattle.std.specs.Prelude.{◌≡◌, ℕ, ◌+◌, ◌*◌, ◌≤◌, IfOk, OnOk, List as list};
ghost use Rattle.pl_line.specs.Rows.{Row, size};
ghost use Rattle.pl_line.specs.Lines.{row};
ghost use Rattle.pl_line.specs.Gives.{Gives};
ghost use Rattle.pl_base.specs.declared.place.FileKey.{FileKey as file_key};
ghost use Rattle.pl_yaml.specs.Nodes as spec;
ghost use Rattle.pl_yaml.specs.Stack as stack;
ghost use Rattle.pl_yaml.specs.Stack.{Leads};

use crate::block_scalar::block;
use crate::content::to_content;
use crate::entries::start_of;
use crate::head::Head;
use crate::heads::{head_of, refusal};
use crate::inline::{flow_node, quoted_node};
use crate::keys::is_colon;
use crate::reader::Reader;
use crate::scalar::word;
use crate::slot::Slot;
use crate::stack::{Begun, Found, Mapping, Open, Sequence};
use pl_base::{FileKey, List as ItemList, Memory, Node, NodeBody, Place, Shared, Text};
use pl_line::{Line, Pairs, ReadFault, YamlCode, begins_with, behind, fault_at, flow, quoted};
use std::alloc::Global;
use std::mem;

/// Whether a line may hold the value that stands there.
fn fits(slot: Slot, line: &Line) -> bool
    ensures { result ≡ spec.fits slot (row line.now) }
{
    slot.parent < line.column
        || slot.own && line.column == slot.parent && matches!(head_of(line), Head::Dash)
}

/// The empty scalar.
fn empty(alloc: Global, file: &Shared<FileKey>, slot: Slot) -> Result<Node, Memory>
    ensures { IfOk result (λ node. node ≡ spec.empty file.now slot) }
{
    let place = Place::at(alloc, file, slot.line, slot.column)?;
    Ok(Node {
        place,
        body: NodeBody::Scalar(Text::new(alloc)),
    })
}

/// The sequence that begins at a line, where so many collections may still open.
fn sequence(alloc: Global, depth: u32, parent: u32, line: &Line) -> Result<Open, ReadFault>
    ensures { (file : file_key) (rows : list Row) →
        Leads (λ begun. stack.in_open file (size rows + 1) begun rows) result
        (spec.sequence file (spec.inner file depth) parent (row line.now) rows) }
{
    if depth == 0 {
        return Err(fault_at(YamlCode::TooDeep, line));
    }
    Ok(Open::Sequence(Sequence {
        start: start_of(line),
        parent,
        depth: depth - 1,
        items: ItemList::new(alloc),
    }))
}

/// The mapping that begins at a line, where so many collections may still open.
fn mapping(alloc: Global, depth: u32, line: &Line) -> Result<Open, ReadFault>
    ensures { (file : file_key) (rows : list Row) →
        Leads (λ begun. stack.in_open file (size rows + 1) begun rows) result
        (spec.mapping file (spec.inner file depth) (row line.now) rows) }
{
    if depth == 0 {
        return Err(fault_at(YamlCode::TooDeep, line));
    }
    Ok(Open::Mapping(Mapping {
        start: start_of(line),
        depth: depth - 1,
        pairs: Pairs::new(alloc),
        key: Text::new(alloc),
        key_start: start_of(line),
    }))
}

/// Reads the quoted scalar, or begins the mapping with that first key, that stands at a line, the
/// first one left.
fn begun_quoted(
    alloc: Global,
    file: &Shared<FileKey>,
    depth: u32,
    line: &Line,
    reader: &mut Reader,
) -> Result<Begun, ReadFault>
    ensures gives { Leads (λ begun. stack.begins file.now begun reader.new) result
        (spec.in_quotes file.now (spec.inner file.now depth) (row line.now) reader.old) }
    ensures falls { OnOk result (size reader.new ≤ size reader.old) }
{
    let read = quoted(alloc, line)?;
    if is_colon(&behind(line, read.len)) {
        return Ok(Begun::Opened(mapping(alloc, depth, line)?));
    }
    let node = quoted_node(alloc, file, line, read)?;
    reader.advance();
    Ok(Begun::Made(node))
}

/// Reads the flow collection that begins at a line, which can't be a key.
fn begun_flow(
    alloc: Global,
    file: &Shared<FileKey>,
    depth: u32,
    line: &Line,
) -> Result<Node, ReadFault>
    ensures { Gives (λ node. node) result (spec.in_brackets file.now depth (row line.now)) }
{
    let read = flow(alloc, file, depth, line)?;
    let rest = behind(line, read.len);
    if begins_with(':', rest.text) {
        return Err(fault_at(YamlCode::ComplexKey, &rest));
    }
    flow_node(line, read)
}

/// Reads the scalar or flow collection, or begins the block collection, that stands at a line, the
/// first one left, in a block of this column.
#[tactic(auto, unfolding(crate::specs::Nodes::begun))]
fn begun(
    alloc: Global,
    file: &Shared<FileKey>,
    depth: u32,
    parent: u32,
    line: &Line,
    reader: &mut Reader,
) -> Result<Begun, ReadFault>
    ensures gives { Leads (λ begun. stack.begins file.now begun reader.new) result
        (spec.begun file.now depth (spec.inner file.now depth) parent (row line.now) reader.old) }
    ensures falls { OnOk result (size reader.new ≤ size reader.old) }
{
    match head_of(line) {
        Head::Dash => Ok(Begun::Opened(sequence(alloc, depth, parent, line)?)),
        Head::Key(_) => Ok(Begun::Opened(mapping(alloc, depth, line)?)),
        Head::Word(len) => {
            reader.advance();
            let node = word(alloc, file, parent, line, len, reader)?;
            Ok(Begun::Made(node))
        }
        Head::Block => {
            reader.advance();
            let node = block(alloc, file, parent, line, reader)?;
            Ok(Begun::Made(node))
        }
        Head::Quote => begun_quoted(alloc, file, depth, line, reader),
        Head::Flow => {
            let node = begun_flow(alloc, file, depth, line)?;
            reader.advance();
            Ok(Begun::Made(node))
        }
        head => Err(fault_at(refusal(head), line)),
    }
}

/// Reads or begins the node that stands there, in which so many collections may still open.
#[tactic(auto, unfolding(crate::specs::Nodes::node))]
fn begin(
    alloc: Global,
    file: &Shared<FileKey>,
    depth: u32,
    slot: Slot,
    reader: &mut Reader,
) -> Result<Begun, ReadFault>
    ensures gives { Leads (λ begun. stack.begins file.now begun reader.new) result
        (spec.node file.now depth slot reader.old) }
    ensures falls { OnOk result (size reader.new ≤ size reader.old) }
{
    to_content(reader)?;
    let Some(line) = reader.first() else {
        return Ok(Begun::Made(empty(alloc, file, slot)?));
    };
    if !fits(slot, &line) {
        return Ok(Begun::Made(empty(alloc, file, slot)?));
    }
    begun(alloc, file, depth, slot.parent, &line, reader)
}

/// Makes the node of the collection that ended, and goes on with the one that waits for it, which
/// has it behind its entries.
fn close(alloc: Global, file: &Shared<FileKey>, top: &mut Open, waiting: Open) -> Result<(), Memory>
    ensures { OnOk result ((turns : ℕ) (rows : list Row) →
        stack.in_open file.now turns top.new rows ≡ stack.into file.now turns waiting
        (stack.made file.now top.old, rows)) }
{
    let done = mem::replace(top, waiting);
    let node = done.into_node(alloc, file)?;
    top.take(alloc, file, node)
}

/// Reads the entries of a collection that has begun, and makes its node.
///
/// Collections in one another are read by one loop. Those that wait for a value stand on a stack,
/// the innermost on top: a collection is put there when a value of it has begun on later lines, and
/// taken off when that value was read.
fn entries(
    alloc: Global,
    file: &Shared<FileKey>,
    begun: Open,
    reader: &mut Reader,
) -> Result<Node, ReadFault>
    ensures { Gives (λ node. (node, reader.new)) result
        (stack.in_open file.now (size reader.old + 1) begun reader.old) }
{
    let mut top = begun;
    let mut outer = ItemList::new(alloc);
    loop {
        match top.next(alloc, file, reader)? {
            Some(Found::Here(node)) => top.take(alloc, file, node)?,
            Some(Found::Below(depth, slot)) => match begin(alloc, file, depth, slot, reader)? {
                Begun::Made(node) => top.take(alloc, file, node)?,
                Begun::Opened(inner) => outer.push(mem::replace(&mut top, inner))?,
            },
            None => match outer.pop() {
                Some(waiting) => close(alloc, file, &mut top, waiting)?,
                None => return Ok(top.into_node(alloc, file)?),
            },
        }
    }
}

/// Reads the node that stands there, in which so many collections may still open.
pub(crate) fn node(
    alloc: Global,
    file: &Shared<FileKey>,
    depth: u32,
    slot: Slot,
    reader: &mut Reader,
) -> Result<Node, ReadFault>
    ensures { Gives (λ node. (node, reader.new)) result (spec.node file.now depth slot reader.old) }
{
    match begin(alloc, file, depth, slot, reader)? {
        Begun::Made(node) => Ok(node),
        Begun::Opened(begun) => entries(alloc, file, begun, reader),
    }
}
