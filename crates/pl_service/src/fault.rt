ghost use Rattle.std.specs.Prelude.{◌≡◌};
ghost use Rattle.pl_service.specs.Begun.{of_keeper, of_rows};

use pl_base::Bytes;
use pl_keeper::KeeperFault;
use pl_opening::RowsFault;

/// Why a service isn't opened.
#[derive(Debug, Drop)]
pub enum OpenFault {
    /// The first row that is torn, with its body.
    Torn { table: u8, key: Bytes, bytes: Bytes },
    /// The keeper failed. It comes only where the keeper's count of faults rose.
    KeeperFault,
    /// There was no memory.
    Memory,
}

impl From<KeeperFault> for OpenFault {
    ghost from_gives = { λ told fault. fault ≡ of_keeper told };

    fn from(fault: KeeperFault) -> OpenFault {
        match fault {
            KeeperFault::Failed => OpenFault::KeeperFault,
            KeeperFault::Memory => OpenFault::Memory,
        }
    }
}

impl From<RowsFault> for OpenFault {
    ghost from_gives = { λ told fault. fault ≡ of_rows told };

    fn from(fault: RowsFault) -> OpenFault {
        match fault {
            RowsFault::Torn { table, key, bytes } => OpenFault::Torn { table, key, bytes },
            RowsFault::Memory => OpenFault::Memory,
        }
    }
}
