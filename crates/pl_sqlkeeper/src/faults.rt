//! What the database refused, as a keeper's faults.

ghost use Rattle.std.specs.Prelude.{◌≡◌, if◌then◌else◌};
ghost use Rattle.pl_base.specs.Counts.{one_more};
ghost use Rattle.pl_sqlkeeper.specs.Faults.{is_counted, told};

use pl_keeper::KeeperFault;
use sqlite::{Error, ErrorCode};

/// What the database answered, as a keeper answers it. Want of memory is Memory. Every other
/// refusal is Failed, and counts as a fault.
pub(crate) fn told<T: Drop>(faults: &mut u64, answer: Result<T, Error>) -> Result<T, KeeperFault>
    ensures value { result ≡ told answer }
    ensures faults { faults.new ≡ (if is_counted answer then one_more faults.old else faults.old) }
{
    match answer {
        Ok(value) => Ok(value),
        Err(Error::SqliteFailure(ErrorCode::OutOfMemory)) => Err(KeeperFault::Memory),
        Err(_) => {
            *faults = faults.saturating_add(1);
            Err(KeeperFault::Failed)
        }
    }
}
