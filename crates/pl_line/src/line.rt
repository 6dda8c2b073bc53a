ghost use Rattle.std.specs.Prelude.{◌+◌, ◌<◌, ◌^◌, length};
ghost use Rattle.pl_line.specs.Characters.{all_of};

use crate::characters::Characters;

/// What is left of a line from a column on: the characters up to the line's end, or up to its first
/// character that no text may have, where the line isn't whole.
#[derive(Clone, Copy)]
pub struct Line<'t> {
    pub number: u32,
    pub column: u32,
    pub text: Characters<'t>,
    pub whole: bool,
    ghost in_range: { column + length (all_of text) < 2 ^ 32 },
}
