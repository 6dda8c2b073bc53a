ghost use Rattle.std.specs.Prelude.{◌≡◌, ◌<◌, ◌≤◌, length, IfOk, OnOk};
ghost use Rattle.pl_line.specs.Characters.{all_of};
ghost use Rattle.pl_line.specs.Lines.{row};
ghost use Rattle.pl_line.specs.Gives.{Gives};
ghost use Rattle.pl_line.specs.Flow as spec;

use crate::code::YamlCode;
use crate::flow_head::FlowHead;
use crate::flow_heads::{head_of, misplaced, no_key};
use crate::found::Flow;
use crate::left::{advance, fault_at};
use crate::line::Line;
use crate::line_fault::ReadFault;
use crate::pairs::Pairs;
use crate::scalars::{node_at, scalar};
use crate::scan::begins_with;
use pl_base::{FileKey, List as ItemList, Node, NodeBody, NodePair, Place, Shared, Text};
use std::alloc::Global;

/// Goes over the `:` behind a key.
#[tactic(auto, unfolding(crate::specs::Flow::colon))]
fn colon(line: &mut Line) -> Result<(), ReadFault>
    ensures gives { Gives (λ _. row line.new) result (spec.colon (row line.old)) }
    ensures falls { OnOk result (length (all_of line.new.text) ≤ length (all_of line.old.text)) }
{
    if begins_with(':', line.text) {
        advance(line, 1);
        Ok(())
    } else {
        Err(misplaced(line))
    }
}

/// Goes over the comma behind an entry, or stays at the closing bracket.
#[tactic(auto, unfolding(crate::specs::Flow::separated))]
fn separated(close: char, line: &mut Line) -> Result<(), ReadFault>
    ensures gives { Gives (λ _. row line.new) result (spec.separated close (row line.old)) }
    ensures falls { OnOk result (length (all_of line.new.text) ≤ length (all_of line.old.text)) }
{
    if begins_with(',', line.text) {
        advance(line, 1);
        Ok(())
    } else if begins_with(close, line.text) {
        Ok(())
    } else {
        Err(misplaced(line))
    }
}

/// Reads a node in a collection, in which so many collections may still open.
#[cycle(collections)]
#[tactic(auto, unfolding(crate::specs::Flow::value))]
fn value(
    alloc: Global,
    file: &Shared<FileKey>,
    depth: u32,
    line: &mut Line,
) -> Result<Node, ReadFault>
    ensures gives { Gives (λ node. (node, row line.new)) result
        (spec.value file.now (spec.node file.now depth) (row line.old)) }
    ensures falls { OnOk result (length (all_of line.new.text) < length (all_of line.old.text)) }
{
    let start = *line;
    match head_of(line) {
        FlowHead::Collection => {
            let node = collection(alloc, file, depth, line)?;
            advance(line, 1);
            Ok(node)
        }
        head => {
            let text = scalar(alloc, head, line)?;
            let node = node_at(alloc, file, &start, NodeBody::Scalar(text))?;
            Ok(node)
        }
    }
}

/// Reads a key and its `:`. A collection in its place is read through.
#[cycle(collections)]
#[tactic(auto, unfolding(crate::specs::Flow::key))]
fn key(
    alloc: Global,
    file: &Shared<FileKey>,
    depth: u32,
    line: &mut Line,
) -> Result<Text, ReadFault>
    ensures gives { Gives (λ text. (text, row line.new)) result (spec.key (spec.node file.now depth)
        (row line.old)) }
    ensures falls { OnOk result (length (all_of line.new.text) < length (all_of line.old.text)) }
{
    match head_of(line) {
        FlowHead::Collection => {
            collection(alloc, file, depth, line)?;
            advance(line, 1);
            Err(no_key(line))
        }
        FlowHead::Question => Err(fault_at(YamlCode::ComplexKey, line)),
        head => {
            let text = scalar(alloc, head, line)?;
            colon(line)?;
            Ok(text)
        }
    }
}

/// Reads the value of the key at that other line: the empty scalar before a comma and the closing
/// bracket.
#[cycle(collections)]
#[tactic(auto, unfolding(crate::specs::Flow::item))]
fn item(
    alloc: Global,
    file: &Shared<FileKey>,
    depth: u32,
    at: &Line,
    line: &mut Line,
) -> Result<Node, ReadFault>
    ensures gives { Gives (λ node. (node, row line.new)) result
        (spec.item file.now (spec.node file.now depth) (row at.now) (row line.old)) }
    ensures falls { OnOk result (length (all_of line.new.text) ≤ length (all_of line.old.text)) }
{
    if begins_with(',', line.text) || begins_with('}', line.text) {
        let node = node_at(alloc, file, at, NodeBody::Scalar(Text::new(alloc)))?;
        return Ok(node);
    }
    value(alloc, file, depth, line)
}

/// Reads an entry of a mapping, after those before it.
#[cycle(collections)]
#[tactic(auto, unfolding(crate::specs::Flow::pair))]
fn pair(
    alloc: Global,
    file: &Shared<FileKey>,
    depth: u32,
    before: &Pairs,
    line: &mut Line,
) -> Result<NodePair, ReadFault>
    ensures gives { Gives (λ pair. (pair, row line.new)) result
        (spec.pair file.now (spec.node file.now depth) before.now.pairs (row line.old)) }
    ensures falls { OnOk result (length (all_of line.new.text) < length (all_of line.old.text)) }
{
    let start = *line;
    let text = key(alloc, file, depth, line)?;
    if before.is_doubled(&text) {
        return Err(fault_at(YamlCode::DuplicateKey, &start));
    }
    let item = item(alloc, file, depth, &start, line)?;
    let key_place = Place::at(alloc, file, start.number, start.column)?;
    Ok(NodePair {
        key: text,
        key_place,
        item,
    })
}

/// Reads the flow sequence that a line begins with, and stays at its closing bracket.
#[cycle(collections)]
fn sequence(
    alloc: Global,
    file: &Shared<FileKey>,
    depth: u32,
    line: &mut Line,
) -> Result<Node, ReadFault>
    requires { 1 ≤ length (all_of line.old.text) }
    ensures gives { Gives (λ node. (node, row line.new)) result
        (spec.sequence file.now (spec.node file.now depth) (row line.old)) }
    ensures closed { OnOk result (1 ≤ length (all_of line.new.text)) }
    ensures falls { OnOk result (length (all_of line.new.text) < length (all_of line.old.text)) }
{
    let start = *line;
    let mut items = ItemList::new(alloc);
    advance(line, 1);
    while !begins_with(']', line.text) {
        let next = value(alloc, file, depth, line)?;
        separated(']', line)?;
        items.push(next)?;
    }
    let node = node_at(alloc, file, &start, NodeBody::Seq(items))?;
    Ok(node)
}

/// Reads the flow mapping that a line begins with, and stays at its closing bracket.
#[cycle(collections)]
fn mapping(
    alloc: Global,
    file: &Shared<FileKey>,
    depth: u32,
    line: &mut Line,
) -> Result<Node, ReadFault>
    requires { 1 ≤ length (all_of line.old.text) }
    ensures gives { Gives (λ node. (node, row line.new)) result
        (spec.mapping file.now (spec.node file.now depth) (row line.old)) }
    ensures closed { OnOk result (1 ≤ length (all_of line.new.text)) }
    ensures falls { OnOk result (length (all_of line.new.text) < length (all_of line.old.text)) }
{
    let start = *line;
    let mut pairs = Pairs::new(alloc);
    advance(line, 1);
    while !begins_with('}', line.text) {
        let next = pair(alloc, file, depth, &pairs, line)?;
        separated('}', line)?;
        pairs = pairs.with(alloc, next)?;
    }
    let node = node_at(alloc, file, &start, NodeBody::Map(pairs.into_pairs()))?;
    Ok(node)
}

/// Reads the flow collection that a line begins with, in which and with which so many collections
/// may still open, and stays at its closing bracket.
#[cycle(collections)]
fn collection(
    alloc: Global,
    file: &Shared<FileKey>,
    depth: u32,
    line: &mut Line,
) -> Result<Node, ReadFault>
    requires { 1 ≤ length (all_of line.old.text) }
    ensures gives { Gives (λ node. (node, row line.new)) result
        (spec.node file.now depth (row line.old)) }
    ensures closed { OnOk result (1 ≤ length (all_of line.new.text)) }
    ensures falls { OnOk result (length (all_of line.new.text) < length (all_of line.old.text)) }
{
    if depth == 0 {
        return Err(fault_at(YamlCode::TooDeep, line));
    }
    if begins_with('[', line.text) {
        sequence(alloc, file, depth - 1, line)
    } else {
        mapping(alloc, file, depth - 1, line)
    }
}

/// Reads the flow collection that a line begins with, in which and with which so many collections
/// may still open (YAML 1.2.2, section 7.4). It stands on one line.
///
/// The first fault from left to right:
/// - Unclosed at the line's end;
/// - BadEscape and Unclosed of a quoted scalar;
/// - Anchor at `&` and `*`, Tag at `!`, where an entry, a key or a value can begin;
/// - ComplexKey at `?` before a blank or the line's end where a key can begin, and at the `:`
///   behind a collection in a key's place;
/// - DuplicateKey at the second of two equal keys, once its `:` is there, unless they begin with
///   `${{`;
/// - TooDeep at a bracket where no more collections may open;
/// - NoEntry at anything else that can't stand where it does: a comma without an entry before it, a
///   comment, a `:` in a sequence, an entry of a mapping without `:`, a character that no text may
///   have, and a line that begins with no bracket.
#[tactic(auto, unfolding(crate::specs::Flow::flow))]
pub fn flow(
    alloc: Global,
    file: &Shared<FileKey>,
    depth: u32,
    line: &Line,
) -> Result<Flow, ReadFault>
    ensures gives { Gives (λ read. (read.node, read.len)) result
        (spec.flow file.now depth (row line.now)) }
    ensures within { IfOk result (λ read. (2 ≤ read.len) ×
        (read.len ≤ length (all_of line.now.text))) }
{
    if !begins_with('[', line.text) && !begins_with('{', line.text) {
        return Err(fault_at(YamlCode::NoEntry, line));
    }
    let mut rest = *line;
    let node = collection(alloc, file, depth, &mut rest)?;
    Ok(Flow {
        node,
        len: line.text.len() - rest.text.len() + 1,
    })
}
