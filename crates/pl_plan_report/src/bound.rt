ghost use Rattle.std.specs.Prelude.{◌≡◌, ◌++◌, OnOk};

use pl_base::{Memory, Text};

/// How many bytes the text of a plan may have before its last line. More are want of memory.
const LONGEST_PLAN: usize = 16_777_216;

/// Puts characters behind the text of a plan. Memory where memory is wanting, and where it would be
/// longer than the text of a plan may be.
pub fn push_within(text: &mut Text, more: &str) -> Result<(), Memory>
    ensures ok { OnOk result (text.new ≡ text.old ++ more.now) }
{
    if more.len() > LONGEST_PLAN.saturating_sub(text.len()) {
        return Err(Memory);
    }
    text.push_str(more)
}
