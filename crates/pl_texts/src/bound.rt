ghost use Rattle.std.specs.Prelude.{◌≡◌, ◌≤◌, ◌++◌, length, OnOk, IfErr};
ghost use Rattle.pl_texts.specs.Bound.{bounded};
ghost use Rattle.pl_texts.specs.Gives.{Gives, IsPast};

use crate::fault::TextFault;
use pl_base::Text;
use std::alloc::Global;

/// How many bytes a text that a function makes may have.
pub const LONGEST_TEXT: usize = 65_536;

/// A text of one's own with the same characters, where that is within the bound.
pub fn bounded_copy(alloc: Global, text: &str) -> Result<Text, TextFault>
    ensures { Gives result (bounded text.now) }
{
    if text.len() > LONGEST_TEXT {
        return Err(TextFault::TooLong);
    }
    let copy = Text::from_str(alloc, text)?;
    Ok(copy)
}

/// Adds a text behind what was made, where both together are within the bound.
pub fn push_bounded(made: &mut Text, more: &str) -> Result<(), TextFault>
    ensures ok { OnOk result (made.new ≡ made.old ++ more.now) }
    ensures within { OnOk result (length made.new ≤ 65536) }
    ensures err { IfErr result (λ fault. IsPast fault (made.old ++ more.now)) }
{
    if made.len() > LONGEST_TEXT || more.len() > LONGEST_TEXT - made.len() {
        return Err(TextFault::TooLong);
    }
    made.push_str(more)?;
    Ok(())
}
