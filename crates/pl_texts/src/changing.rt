ghost use Rattle.std.specs.Prelude.{◌≡◌, ◌<◌, length};
ghost use Rattle.std.specs.Str.{trim};
ghost use Rattle.pl_texts.specs.Bound.{bounded};
ghost use Rattle.pl_texts.specs.Gives.{Gives};
ghost use Rattle.pl_texts.specs.Changing.{lowered, raised, replaced};

use crate::bound::{LONGEST_TEXT, bounded_copy, push_bounded};
use crate::fault::TextFault;
use crate::scanning::whole;
use pl_base::Text;
use std::alloc::Global;

/// The text with ASCII letters in lower case. TooLong where it has more than 65,536 bytes.
pub fn lower(alloc: Global, text: &Text) -> Result<Text, TextFault>
    ensures { Gives result (bounded (lowered text.now)) }
{
    if text.len() > LONGEST_TEXT {
        return Err(TextFault::TooLong);
    }
    let lower = text.as_str().to_ascii_lowercase(alloc)?;
    Ok(Text::from_string(lower))
}

/// The text with ASCII letters in upper case. TooLong where it has more than 65,536 bytes.
pub fn upper(alloc: Global, text: &Text) -> Result<Text, TextFault>
    ensures { Gives result (bounded (raised text.now)) }
{
    if text.len() > LONGEST_TEXT {
        return Err(TextFault::TooLong);
    }
    let upper = text.as_str().to_ascii_uppercase(alloc)?;
    Ok(Text::from_string(upper))
}

/// The text without the white space at both ends (Unicode, White_Space). TooLong where that has
/// more than 65,536 bytes.
pub fn trim(alloc: Global, text: &Text) -> Result<Text, TextFault>
    ensures { Gives result (bounded (trim text.now)) }
{
    bounded_copy(alloc, text.as_str().trim())
}

/// The text with `new` in the place of each occurrence of `sought`, from left to right and without
/// overlap, case counting. All stays where `sought` is empty. TooLong where the result has more
/// than 65,536 bytes.
pub fn replace(alloc: Global, text: &Text, sought: &Text, new: &Text) -> Result<Text, TextFault>
    ensures { Gives result (bounded (replaced text.now sought.now new.now)) }
{
    if sought.is_empty() {
        return bounded_copy(alloc, text.as_str());
    }
    replace_some(alloc, text.as_str(), sought.as_str(), new.as_str())
}

fn replace_some(alloc: Global, text: &str, sought: &str, new: &str) -> Result<Text, TextFault>
    requires { 0 < length sought.now }
    ensures { Gives result (bounded (replaced text.now sought.now new.now)) }
{
    let mut made = Text::new(alloc);
    let mut rest = text;
    while let Some((front, behind)) = rest.split_once(sought) {
        push_bounded(&mut made, front)?;
        push_bounded(&mut made, new)?;
        rest = whole(behind);
    }
    push_bounded(&mut made, rest)?;
    Ok(made)
}
