ghost use Rattle.std.specs.Prelude.{◌≡◌, ◌≤◌, length, OnOk};
ghost use Rattle.pl_line.specs.Characters.{all_of};
ghost use Rattle.pl_line.specs.Rows.{size};
ghost use Rattle.pl_line.specs.Lines.{row};
ghost use Rattle.pl_line.specs.Gives.{Gives};
ghost use Rattle.pl_yaml.specs.Inline as spec;

use crate::block_scalar::block;
use crate::head::Head;
use crate::heads::{closed, head_of, refusal_inline};
use crate::reader::Reader;
use crate::scalar::word;
use pl_base::{FileKey, Node, NodeBody, Shared};
use pl_line::{
    Flow, Line, Quoted, ReadFault, YamlCode, fault_at, fault_behind, flow, node_at, quoted,
};
use std::alloc::Global;

/// A quoted scalar, behind which its line has no content.
pub(crate) fn quoted_node(
    alloc: Global,
    file: &Shared<FileKey>,
    line: &Line,
    read: Quoted,
) -> Result<Node, ReadFault>
    requires { read.len ≤ length (all_of line.now.text) }
    ensures { Gives (λ node. node) result (spec.quoted_node file.now (row line.now)
        (read.text, read.len)) }
{
    closed(line, read.len)?;
    let body = NodeBody::Scalar(read.text);
    let node = node_at(alloc, file, line, body)?;
    Ok(node)
}

/// A flow collection, behind which its line has no content.
pub(crate) fn flow_node(line: &Line, read: Flow) -> Result<Node, ReadFault>
    requires { read.len ≤ length (all_of line.now.text) }
    ensures { Gives (λ node. node) result (spec.flow_node (row line.now) (read.node, read.len)) }
{
    closed(line, read.len)?;
    Ok(read.node)
}

/// Reads a value on the line of its key or dash, which was taken off, where so many collections may
/// still open.
#[tactic(auto, unfolding(crate::specs::Inline::inline))]
pub(crate) fn inline(
    alloc: Global,
    file: &Shared<FileKey>,
    depth: u32,
    parent: u32,
    line: &Line,
    reader: &mut Reader,
) -> Result<Node, ReadFault>
    ensures gives { Gives (λ node. (node, reader.new)) result
        (spec.inline file.now depth parent (row line.now) reader.old) }
    ensures falls { OnOk result (size reader.new ≤ size reader.old) }
{
    match head_of(line) {
        Head::Word(len) => word(alloc, file, parent, line, len, reader),
        Head::Block => block(alloc, file, parent, line, reader),
        Head::Quote => quoted_node(alloc, file, line, quoted(alloc, line)?),
        Head::Flow => flow_node(line, flow(alloc, file, depth, line)?),
        Head::Key(len) => Err(fault_behind(YamlCode::NoEntry, len, line)),
        head => Err(fault_at(refusal_inline(head), line)),
    }
}
