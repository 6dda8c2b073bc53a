ghost use Rattle.std.specs.Prelude.{◌≡◌, ◌++◌, replicate, OnOk, encode_utf8_all, string_bytes};
ghost use Rattle.pl_line.specs.Characters.{all_of};

use pl_line::Characters;
use std::alloc::AllocError;

/// Adds characters to a text.
pub(crate) fn push_all(text: &mut String, characters: Characters) -> Result<(), AllocError>
    ensures { OnOk result (string_bytes text.new ≡ string_bytes text.old ++
        encode_utf8_all (all_of characters.entry)) }
{
    text.push_str(characters.as_str())
}

/// Adds a character to a text so many times.
#[tactic(auto, using(crate::proofs::Laws::Bytes::push_same))]
pub(crate) fn push_times(text: &mut String, character: char, times: u32) -> Result<(), AllocError>
    ensures { OnOk result (string_bytes text.new ≡ string_bytes text.old ++
        encode_utf8_all (replicate times character)) }
{
    for _ in 0..times {
        text.push(character)?;
    }
    Ok(())
}
