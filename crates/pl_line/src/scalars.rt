ghost use Rattle.std.specs.Prelude.{◌≡◌, ◌<◌, ◌≤◌, length, IfOk, OnOk, encode_utf8_all};
ghost use Rattle.pl_line.specs.Characters.{all_of};
ghost use Rattle.pl_line.specs.Lines.{row};
ghost use Rattle.pl_line.specs.Gives.{Gives};
ghost use Rattle.pl_line.specs.Trees as trees;
ghost use Rattle.pl_line.specs.Flow as spec;

use crate::flow_head::FlowHead;
use crate::flow_heads::refusal;
use crate::left::{advance, fault_at};
use crate::line::Line;
use crate::line_fault::ReadFault;
use crate::quotes::quoted;
use crate::scan::content;
use pl_base::{FileKey, Memory, Node, NodeBody, Place, Shared, Text};
use std::alloc::Global;

/// The plain scalar of so many of a line's characters, without the blanks behind it.
pub fn plain(alloc: Global, len: usize, line: &Line) -> Result<Text, Memory>
    requires { len ≤ length (all_of line.now.text) }
    ensures { IfOk result (λ text. text ≡ trees.plain len (row line.now)) }
{
    Text::from_str(alloc, content(line.text, len))
}

/// A node at a line's column.
pub fn node_at(
    alloc: Global,
    file: &Shared<FileKey>,
    line: &Line,
    body: NodeBody,
) -> Result<Node, Memory>
    ensures { IfOk result (λ node. node ≡ trees.node_at file.now (row line.now) body) }
{
    let place = Place::at(alloc, file, line.number, line.column)?;
    Ok(Node { place, body })
}

/// Reads the text of the plain or quoted scalar with such a head, and goes behind it.
#[tactic(auto, unfolding(crate::specs::Flow::scalar_by))]
pub(crate) fn scalar(alloc: Global, head: FlowHead, line: &mut Line) -> Result<Text, ReadFault>
    requires { spec.Spans (length (all_of line.old.text)) head }
    ensures gives { Gives (λ text. (text, row line.new)) result (spec.scalar_by (row line.old) head) }
    ensures falls { OnOk result (length (all_of line.new.text) < length (all_of line.old.text)) }
{
    match head {
        FlowHead::Quote => {
            let read = quoted(alloc, line)?;
            advance(line, read.len);
            Ok(read.text)
        }
        FlowHead::Plain(len) => {
            let text = plain(alloc, len, line)?;
            advance(line, len);
            Ok(text)
        }
        head => Err(fault_at(refusal(head, line), line)),
    }
}
