ghost use Rattle.std.specs.Prelude.{◌≡◌, ◌+◌, ◌∷◌, [], ◌++◌, OnOk, IfOk};
ghost use Rattle.pl_printing.specs.Levels.{at_level, spaces};

use pl_base::Memory;

/// The two spaces of each level.
pub fn push_indentation(output: &mut Vec<u8>, level: usize) -> Result<(), Memory>
    ensures { OnOk result (output.new.items ≡ output.old.items ++ spaces level) }
{
    for _done in 0..level {
        output.extend_from_slice(b"  ")?;
    }
    Ok(())
}

/// One line at a level.
pub fn push_line(output: &mut Vec<u8>, level: usize, line: &[u8]) -> Result<(), Memory>
    ensures { OnOk result (output.new.items ≡ output.old.items ++ at_level level (line.now ∷ [])) }
{
    push_indentation(output, level)?;
    output.extend_from_slice(line)?;
    output.push(b'\n')?;
    Ok(())
}

/// The next deeper level. More levels than a `usize` counts are more than memory holds.
pub fn deeper(level: usize) -> Result<usize, Memory>
    ensures { IfOk result (λ next. next ≡ level + 1) }
{
    level.checked_add(1).ok_or(Memory)
}
