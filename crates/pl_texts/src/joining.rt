ghost use Rattle.pl_texts.specs.Bound.{bounded};
ghost use Rattle.pl_texts.specs.Gives.{Gives};
ghost use Rattle.pl_texts.specs.Pieces.{joined};

use crate::bound::push_bounded;
use crate::fault::TextFault;
use pl_base::{List, Text};
use std::alloc::Global;

/// The texts in order, the separator between each two. TooLong where the result has more than
/// 65,536 bytes.
pub fn join(alloc: Global, separator: &Text, texts: &List<Text>) -> Result<Text, TextFault>
    ensures { Gives result (bounded (joined separator.now texts.now)) }
{
    let mut made = Text::new(alloc);
    let Some((first, others)) = texts.as_slice().split_first() else {
        return Ok(made);
    };
    push_bounded(&mut made, first.as_str())?;
    for text in others {
        push_bounded(&mut made, separator.as_str())?;
        push_bounded(&mut made, text.as_str())?;
    }
    Ok(made)
}
