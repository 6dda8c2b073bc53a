ghost use Rattle.std.specs.Prelude.{◌≡◌, ◌++◌, decimal, IfOk, OnOk};
ghost use Rattle.pl_rehearsal.specs.Summary.{line_of};

use crate::summary::Summary;
use pl_base::{Memory, Text};
use std::alloc::Global;

/// Puts a number behind a text, in decimal digits.
fn push_number(alloc: Global, text: &mut Text, number: u64) -> Result<(), Memory>
    ensures { OnOk result (text.new ≡ text.old ++ decimal number) }
{
    let digits = number.to_string(alloc)?;
    text.push_str(digits.as_str())
}

/// A summary as its line: `runs N jobs J superseded S`, and a line feed. Memory where memory is
/// wanting.
pub fn summary_line(alloc: Global, summary: &Summary) -> Result<Text, Memory>
    ensures { IfOk result (λ line. line ≡ line_of summary.now) }
{
    let mut line = Text::from_str(alloc, "runs ")?;
    push_number(alloc, &mut line, summary.runs)?;
    line.push_str(" jobs ")?;
    push_number(alloc, &mut line, summary.jobs)?;
    line.push_str(" superseded ")?;
    push_number(alloc, &mut line, summary.superseded)?;
    line.push_str("\n")?;
    Ok(line)
}
