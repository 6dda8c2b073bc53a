ghost use Rattle.std.specs.Prelude.{◌≡◌, ◌≤◌, OnOk};
ghost use Rattle.pl_line.specs.Rows.{size};
ghost use Rattle.pl_line.specs.Gives.{Gives};
ghost use Rattle.pl_yaml.specs.Content as spec;

use crate::heads::{begins, is_start, stands};
use crate::reader::Reader;
use pl_line::{ReadFault, is_empty, line_end};

/// Goes to the next line with content.
#[tactic(auto, unfolding(crate::specs::Content::content), using(crate::proofs::Laws::Content::size_drop))]
pub(crate) fn to_content(reader: &mut Reader) -> Result<(), ReadFault>
    ensures gives { Gives (λ _. reader.new) result (spec.content reader.old) }
    ensures falls { OnOk result (size reader.new ≤ size reader.old) }
{
    while let Some(line) = reader.first() {
        if !is_empty(&line) {
            return stands(&line);
        }
        line_end(&line)?;
        reader.advance();
    }
    Ok(())
}

/// Goes to a text's first line with content.
#[tactic(auto, unfolding(crate::specs::Content::lead), using(crate::proofs::Laws::Content::size_drop))]
pub(crate) fn to_lead(reader: &mut Reader) -> Result<(), ReadFault>
    ensures { Gives (λ _. reader.new) result (spec.lead reader.old) }
{
    while let Some(line) = reader.first() {
        if !is_empty(&line) && !is_start(&line) {
            return begins(&line);
        }
        line_end(&line)?;
        reader.advance();
    }
    Ok(())
}
