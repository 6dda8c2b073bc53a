ghost use Rattle.std.specs.Prelude.{◌≡◌, IfOk};
ghost use Rattle.pl_generated.specs.Input.{behaviour_line, text};

use pl_base::{Memory, Text};
use std::alloc::Global;

/// The first line of a text, where it has one.
fn behaviour_line(number: u64) -> &'static str
    ensures { result.now ≡ behaviour_line number }
{
    if number % 2 == 0 {
        "lockBehavior: sequential\n"
    } else {
        ""
    }
}

/// The text of this number: a stage whose job has one to four legs, and a stage of one job.
pub(crate) fn text(alloc: Global, number: u64) -> Result<Text, Memory>
    ensures { IfOk result (λ made. made ≡ text number) }
{
    let legs = (1 + number % 4).to_string(alloc)?;
    let index = number.to_string(alloc)?;
    let mut text = Text::from_str(alloc, behaviour_line(number))?;
    text.push_str("stages:\n- stage: A\n  jobs:\n  - job: J\n    strategy:\n      parallel: ")?;
    text.push_str(legs.as_str())?;
    text.push_str("\n    steps:\n    - script: echo ")?;
    text.push_str(index.as_str())?;
    text.push_str("\n- stage: B\n  jobs:\n  - job: K\n    steps:\n    - script: echo done\n")?;
    Ok(text)
}
