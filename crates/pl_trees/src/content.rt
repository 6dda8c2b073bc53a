ghost use Rattle.std.specs.Prelude.{◌≡◌, IfOk, option_map};
ghost use Rattle.serde_json.specs.Read.{of_json, read};
ghost use Rattle.pl_trees.specs.Trees.{data_in, seen};
ghost use Rattle.pl_trees.specs.Views.{tree_view};

use crate::range::are_in_range;
use crate::reading::{Unread, read_value};
use crate::tree::Tree;
use json::{Reader, Scratch};
use pl_base::Memory;
use std::alloc::Global;

/// How deep lists and objects may nest: `serde_json` goes no deeper.
const MAX_DEPTH: usize = 127;

/// The JSON value that a content is, or None where it is none: it is UTF-8, and `serde_json` reads
/// it. Its texts are the content's own, or in `scratch` where they have escapes.
#[tactic(auto, unfolding(crate::specs::Trees::data_in))]
pub fn value_in<'v>(
    alloc: Global,
    content: &'v [u8],
    scratch: &'v mut Scratch,
) -> Result<Option<Tree<'v>>, Memory>
    ensures { IfOk result (λ value. option_map seen value ≡ data_in content.now) }
{
    match simdutf8::compat::from_utf8(content) {
        Ok(text) => read_all(alloc, text, scratch),
        Err(_) => Ok(None),
    }
}

/// The JSON value that a text is, or None where it is none.
#[tactic(auto, using(crate::proofs::Trees::one_value, crate::proofs::Trees::value_and_more, crate::proofs::Trees::no_value))]
fn read_all<'v>(
    alloc: Global,
    text: &'v str,
    scratch: &'v mut Scratch,
) -> Result<Option<Tree<'v>>, Memory>
    ensures { IfOk result (λ value. option_map seen value ≡ read text.now) }
{
    let mut reader = Reader::new(text, scratch)?;
    match read_value(alloc, &mut reader, MAX_DEPTH) {
        Ok(value) => match reader.next() {
            Some(_) => Ok(None),
            None => Ok(with_data(value)),
        },
        Err(Unread::Memory) => Err(Memory),
        Err(Unread::Bad) => Ok(None),
    }
}

/// A value where `serde_json` reads one: its numbers are in range.
#[tactic(auto, using(crate::proofs::Trees::reads))]
fn with_data(value: Tree<'_>) -> Option<Tree<'_>>
    ensures { option_map seen result ≡ of_json (tree_view value.entry) }
{
    if are_in_range(&value) {
        Some(value)
    } else {
        None
    }
}
