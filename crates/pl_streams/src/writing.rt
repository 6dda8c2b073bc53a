ghost use Rattle.std.specs.Prelude.{◌≡◌};
ghost use Rattle.pl_streams.specs.Flows.{outflow};
ghost use Rattle.pl_streams.specs.Whole.{IsWritten};

use pl_base::{Failed, Sink};

/// Writes all of the bytes. Failed where a write failed: then a beginning of them was written.
pub fn write_all<S: Sink>(sink: &mut S, bytes: &[u8]) -> Result<(), Failed>
    ensures { IsWritten bytes.now result (outflow S.Sink sink.old) (outflow S.Sink sink.new) }
{
    let mut written = 0;
    while written < bytes.len() {
        written += sink.write(bytes.split_at(written).1)?;
    }
    Ok(())
}
