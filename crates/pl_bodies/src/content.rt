ghost use Rattle.std.specs.Prelude.{◌≡◌};
ghost use Rattle.pl_bodies.specs.Meaning.{Gives, Seen, none_in, wanted};
ghost use Rattle.pl_trees.specs.Trees.{data_in, seen};

use crate::fault::BodyFault;
use json::Scratch;
use pl_trees::Tree;
use std::alloc::Global;

/// The JSON value that a content is. Bad where it is none.
pub(crate) fn value_in<'v>(
    alloc: Global,
    content: &'v [u8],
    scratch: &'v mut Scratch,
) -> Result<Tree<'v>, BodyFault>
    ensures { Seen (λ value. seen value) result (wanted (data_in content.now)) }
{
    match pl_trees::value_in(alloc, content, scratch)? {
        Some(value) => Ok(value),
        None => Err(BodyFault::Bad),
    }
}

/// That there is no content, where a route wants none. Bad where there is some. It takes no memory.
pub fn no_content(content: &[u8]) -> Result<(), BodyFault>
    ensures { Gives result (none_in content.now) }
{
    match content {
        [] => Ok(()),
        [_, ..] => Err(BodyFault::Bad),
    }
}
