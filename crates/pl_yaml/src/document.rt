ghost use Rattle.std.specs.Prelude.{◌≡◌, ◌+◌, ◌<◌, ◌≤◌, ◌^◌, length, chars, IfOk};
ghost use Rattle.pl_line.specs.Rows.{rows_of};
ghost use Rattle.pl_line.specs.Gives.{Gives};
ghost use Rattle.pl_yaml.specs.Answers as answers;
ghost use Rattle.pl_yaml.specs.Spells as spec;

use crate::content::{to_content, to_lead};
use crate::fault::YamlFault;
use crate::node::node;
use crate::reader::Reader;
use crate::slot::Slot;
use pl_base::{ExactCopy, FileKey, Node, Place, Shared};
use pl_line::{ReadFault, Rows, YamlCode, fault_at, without_mark};
use std::alloc::Global;
use std::str;

/// The most bytes that a text has.
const MOST_BYTES: usize = 262_144;

/// The most collections that are open at one place.
const MOST_DEPTH: u32 = 64;

/// Where the whole text's node stands.
const WHOLE_TEXT: Slot = Slot {
    line: 1,
    column: 1,
    parent: 0,
    own: false,
};

/// Reads a text as the node that it spells in this project's profile of YAML 1.2.2.
///
/// The profile has block mappings and sequences, plain, quoted and block scalars, and flow
/// collections; quoted scalars and flow collections stand on one line, and keys are plain or quoted
/// scalars. Every node and key has the place of its first character; an empty value has that of its
/// key or dash, and a text without content is the empty scalar at line 1, column 1.
///
/// A text that isn't in the profile is refused with the first of its faults, at one place the one
/// that is listed first:
/// - NotUtf8: the bytes aren't UTF-8, at line 1, column 1;
/// - TabIndent: a tab before a line's content, at the tab;
/// - Anchor, Tag: a node begins with `&` or `*`, with `!`;
/// - ComplexKey: `? ` where an entry begins, or a flow collection as a key, at its `:`;
/// - Documents: `---` or `...` at column 1 before a blank or the line's end, unless it is a `---`
///   alone
///   on its line before any content, which is skipped; or `%` at column 1 before any content;
/// - BadIndent: a line whose indentation fits no entry and continues nothing, at its content; a
///   blank line longer than the content of a block scalar that it begins;
/// - Unclosed: a quote or a bracket that isn't closed on its line, at the line's end;
/// - BadEscape: a backslash in double quotes that begins no escape;
/// - DuplicateKey: a key that stands twice in a mapping, at the second one, unless it begins with
///   `${{`;
/// - TooDeep: a collection with which more than 64 are open, where it begins;
/// - TooLarge: more than 262,144 bytes, before all others, at line 1, column 1;
/// - NoEntry: anything else that can't stand where it does, a control character among them, and `?
///   `
///   at an entry of a flow sequence. So is the `{` of `[${{ x }}]`, since a plain scalar in a flow
///   collection ends before `{`: such an expression is written in quotes, or in a block sequence.
///
/// The text is read from its bytes, line by line. Block collections that wait for a value stand on
/// a stack of at most 64. Memory is taken for the node, for that stack, and for the keys of
/// mappings with more than eight pairs; Memory is answered where a growth is refused.
pub fn read(alloc: Global, text: &[u8], file: &FileKey) -> Result<Node, YamlFault>
    ensures { answers.Reads file.now text.now result }
{
    let file = Shared::new(alloc, file.copy(alloc)?)?;
    read_in(alloc, text, &file)
}

/// Reads a text as the node that it spells, whose places share the file's key.
fn read_in(alloc: Global, text: &[u8], file: &Shared<FileKey>) -> Result<Node, YamlFault>
    ensures { answers.Reads file.now text.now result }
{
    if text.len() > MOST_BYTES {
        return refused(alloc, file, YamlCode::TooLarge, 1, 1);
    }
    let Ok(text) = str::from_utf8(text) else {
        return refused(alloc, file, YamlCode::NotUtf8, 1, 1);
    };
    match document_of(alloc, file, text) {
        Ok(node) => Ok(node),
        Err(ReadFault::Refused(fault)) => {
            refused(alloc, file, fault.code, fault.line, fault.column)
        }
        Err(ReadFault::Memory) => Err(YamlFault::Memory),
    }
}

/// A refusal at a place of a file.
fn refused(
    alloc: Global,
    file: &Shared<FileKey>,
    code: YamlCode,
    line: u32,
    column: u32,
) -> Result<Node, YamlFault>
    ensures { answers.Answers result (spec.refused file.now code line column) }
{
    let place = Place::at(alloc, file, line, column)?;
    Err(YamlFault::Refused(code, place))
}

/// Reads the node of a text.
fn document_of(alloc: Global, file: &Shared<FileKey>, text: &str) -> Result<Node, ReadFault>
    requires { length text.now ≤ 262144 }
    ensures { Gives (λ node. node) result (spec.document file.now (rows_of (chars text.now))) }
{
    let mut reader = Reader::of(Rows::of(without_mark(text)));
    let node = document(alloc, file, &mut reader)?;
    Ok(node)
}

/// Reads the node of a text's lines, behind which no line has content.
#[tactic(auto, unfolding(crate::specs::Spells::document))]
fn document(alloc: Global, file: &Shared<FileKey>, reader: &mut Reader) -> Result<Node, ReadFault>
    ensures { Gives (λ node. node) result (spec.document file.now reader.old) }
{
    to_lead(reader)?;
    let node = node(alloc, file, MOST_DEPTH, WHOLE_TEXT, reader)?;
    to_content(reader)?;
    match reader.first() {
        Some(line) => Err(fault_at(YamlCode::BadIndent, &line)),
        None => Ok(node),
    }
}
