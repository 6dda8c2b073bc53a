ghost use Rattle.std.specs.Prelude.{◌≡◌, ◌∷◌, [], ◌++◌, map, OnOk, IfOk};
ghost use Rattle.pl_printing.specs.Printed.{printed, written, written_body, written_pair, lines_of};
ghost use Rattle.pl_printing.specs.Printed.{item_entry, sequence_of, mapping_of};
ghost use Rattle.pl_printing.specs.Levels.{at_level, behind_mark, is_inline};

use crate::lines::{deeper, push_indentation, push_line};
use crate::quoting::{push_quoted, push_scalar};
use pl_base::{Bytes, List, Memory, Node, NodeBody, NodePair};
use std::alloc::Global;

/// A node as a YAML text in block style (YAML 1.2.2, section 8.2), two spaces a level, whatever its
/// depth. An entry of a mapping is its key in double quotes and `:`, an entry of a sequence is `-`.
/// A scalar, in double quotes, or an empty collection, `[]` or `{}`, follows on the same line
/// behind one space. Any other collection begins on the next line, one level deeper. A scalar or an
/// empty collection as the whole node is one line. Each line ends with one line feed. In quotes
/// (section 5.7) stand `\"`, `\\`, `\n`, `\r`, `\t`, and `\xHH` with upper-case digits for other
/// characters below U+0020 and for U+007F; all else stands as it is. Places are not written. The
/// error is a refused growth of memory, and nothing else.
pub fn write(alloc: Global, node: &Node) -> Result<Bytes, Memory>
    ensures { IfOk result (λ bytes. bytes ≡ printed node.now) }
{
    let mut output = Vec::new(alloc);
    push_node(&mut output, 0, node)?;
    Ok(List::from_vec(output))
}

/// A node's lines at a level.
#[cycle(printed)]
fn push_node(output: &mut Vec<u8>, level: usize, node: &Node) -> Result<(), Memory>
    ensures { OnOk result (output.new.items ≡ output.old.items ++
        at_level level (lines_of (written node.now))) }
{
    match &node.body {
        NodeBody::Scalar(text) => push_scalar(output, level, text),
        NodeBody::Seq(items) => push_sequence(output, level, items),
        NodeBody::Map(pairs) => push_mapping(output, level, pairs),
    }
}

#[cycle(printed)]
fn push_sequence(output: &mut Vec<u8>, level: usize, items: &List<Node>) -> Result<(), Memory>
    ensures { OnOk result (output.new.items ≡ output.old.items ++
        at_level level (lines_of (sequence_of (map written items.now)))) }
{
    if items.is_empty() {
        return push_line(output, level, b"[]");
    }
    for item in items.as_slice() {
        push_item(output, level, item)?;
    }
    Ok(())
}

#[cycle(printed)]
fn push_mapping(output: &mut Vec<u8>, level: usize, pairs: &List<NodePair>) -> Result<(), Memory>
    ensures { OnOk result (output.new.items ≡ output.old.items ++
        at_level level (lines_of (mapping_of (map written_pair pairs.now)))) }
{
    if pairs.is_empty() {
        return push_line(output, level, b"{}");
    }
    for pair in pairs.as_slice() {
        push_pair(output, level, pair)?;
    }
    Ok(())
}

#[cycle(printed)]
fn push_item(output: &mut Vec<u8>, level: usize, item: &Node) -> Result<(), Memory>
    ensures { OnOk result (output.new.items ≡ output.old.items ++
        at_level level (item_entry (written item.now))) }
{
    push_indentation(output, level)?;
    output.push(b'-')?;
    push_behind_mark(output, level, item)
}

#[cycle(printed)]
fn push_pair(output: &mut Vec<u8>, level: usize, pair: &NodePair) -> Result<(), Memory>
    ensures { OnOk result (output.new.items ≡ output.old.items ++
        at_level level (written_pair pair.now)) }
{
    push_indentation(output, level)?;
    push_quoted(output, pair.key.as_bytes())?;
    output.push(b':')?;
    push_behind_mark(output, level, &pair.item)
}

/// What stands behind the mark of an entry at a level, to the end of the entry's last line.
#[cycle(printed)]
fn push_behind_mark(output: &mut Vec<u8>, level: usize, node: &Node) -> Result<(), Memory>
    ensures { OnOk result (output.new.items ≡ output.old.items ++
        behind_mark level (written node.now)) }
{
    if is_inline(&node.body) {
        output.push(b' ')?;
        push_node(output, 0, node)
    } else {
        output.push(b'\n')?;
        push_node(output, deeper(level)?, node)
    }
}

/// Whether a node is one text on the line that it begins on.
fn is_inline(body: &NodeBody) -> bool
    ensures { result ≡ is_inline (written_body body.now) }
{
    match body {
        NodeBody::Scalar(_) => true,
        NodeBody::Seq(items) => items.is_empty(),
        NodeBody::Map(pairs) => pairs.is_empty(),
    }
}
