//! Block collections that are being read.
//!
//! A collection inside another is read before the other goes on. So those that wait for a value
//! stand on a stack, the innermost on top, each with the entries before that value.

ghost use Rattle.std.specs.Prelude.{◌≡◌, ℕ, List as list, IfOk, OnOk};
ghost use Rattle.pl_line.specs.Rows.{Row};
ghost use Rattle.pl_yaml.specs.Stack as spec;

use crate::slot::Slot;
use pl_base::{FileKey, List as ItemList, Memory, Node, NodeBody, NodePair, Place, Shared, Text};
use pl_line::Pairs;
use std::alloc::Global;
use std::mem;

/// Where something begins.
#[derive(Clone, Copy)]
pub(crate) struct Start {
    pub(crate) line: u32,
    pub(crate) column: u32,
}

/// A sequence so far: where it begins, the column of the block that holds it, how many collections
/// may still open in it, and its items.
#[derive(Drop)]
pub(crate) struct Sequence {
    pub(crate) start: Start,
    pub(crate) parent: u32,
    pub(crate) depth: u32,
    pub(crate) items: ItemList<Node>,
}

/// A mapping so far: where it begins, how many collections may still open in it, its pairs, and the
/// last key that was read, which has its value next.
#[derive(Drop)]
pub(crate) struct Mapping {
    pub(crate) start: Start,
    pub(crate) depth: u32,
    pub(crate) pairs: Pairs,
    pub(crate) key: Text,
    pub(crate) key_start: Start,
}

/// A collection that is being read.
#[derive(Drop)]
pub(crate) enum Open {
    Sequence(Sequence),
    Mapping(Mapping),
}

/// The value of an entry: read, or to be read where it stands, where so many collections may still
/// open.
#[derive(Drop)]
pub(crate) enum Found {
    Here(Node),
    Below(u32, Slot),
}

/// What begins where a node stands: a node that was read, or a collection without its entries.
#[derive(Drop)]
pub(crate) enum Begun {
    Made(Node),
    Opened(Open),
}

/// A node that begins there.
fn node_from(
    alloc: Global,
    file: &Shared<FileKey>,
    start: Start,
    body: NodeBody,
) -> Result<Node, Memory>
    ensures { IfOk result (λ node. node ≡ spec.node_from file.now start body) }
{
    let place = Place::at(alloc, file, start.line, start.column)?;
    Ok(Node { place, body })
}

impl Mapping {
    /// Puts a value behind the pairs, with the key that was read last.
    fn take(&mut self, alloc: Global, file: &Shared<FileKey>, item: Node) -> Result<(), Memory>
        ensures pairs { OnOk result (self.new.pairs.pairs ≡ spec.with_item file.now self.old item) }
        ensures start { OnOk result (self.new.start ≡ self.old.start) }
        ensures depth { OnOk result (self.new.depth ≡ self.old.depth) }
    {
        let key_place = Place::at(alloc, file, self.key_start.line, self.key_start.column)?;
        let key = mem::replace(&mut self.key, Text::new(alloc));
        let pair = NodePair {
            key,
            key_place,
            item,
        };
        self.pairs.push(alloc, pair)
    }
}

impl Open {
    /// Puts the value of its last entry behind those before it.
    pub(crate) fn take(
        &mut self,
        alloc: Global,
        file: &Shared<FileKey>,
        item: Node,
    ) -> Result<(), Memory>
        ensures { OnOk result ((turns : ℕ) (rows : list Row) →
            spec.in_open file.now turns self.new rows ≡ spec.into file.now turns self.old
            (item, rows)) }
    {
        match self {
            Open::Sequence(sequence) => sequence.items.push(item),
            Open::Mapping(mapping) => mapping.take(alloc, file, item),
        }
    }

    /// Its node, with the entries so far.
    pub(crate) fn into_node(self, alloc: Global, file: &Shared<FileKey>) -> Result<Node, Memory>
        ensures { IfOk result (λ node. node ≡ spec.made file.now self) }
    {
        match self {
            Open::Sequence(sequence) => {
                node_from(alloc, file, sequence.start, NodeBody::Seq(sequence.items))
            }
            Open::Mapping(mapping) => {
                let pairs = mapping.pairs.into_pairs();
                node_from(alloc, file, mapping.start, NodeBody::Map(pairs))
            }
        }
    }
}
