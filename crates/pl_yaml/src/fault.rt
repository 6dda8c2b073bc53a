ghost use Rattle.std.specs.Prelude.{◌≡◌};
ghost use Rattle.pl_yaml.specs.declared.fault.YamlFault.TheVariants.{Memory};

use pl_base::Place;
use pl_line::YamlCode;
use std::alloc::{AllocError, AllocFailed};
use thiserror::Error;

/// A text that isn't read: the fault and its place, or want of memory.
#[derive(Debug, Drop, Error, PartialEq, Eq)]
pub enum YamlFault {
    /// The text isn't in the profile.
    #[error("{line}:{col}: {0}", line = .1.line, col = .1.col)]
    Refused(YamlCode, Place),
    /// Memory was wanting.
    #[error("out of memory")]
    Memory,
}

impl From<pl_base::Memory> for YamlFault {
    ghost from_gives = { λ _ e. e ≡ Memory };

    fn from(_refused: pl_base::Memory) -> YamlFault {
        YamlFault::Memory
    }
}

impl From<AllocError> for YamlFault {
    ghost from_gives = { λ _ e. e ≡ Memory };

    fn from(_refused: AllocError) -> YamlFault {
        YamlFault::Memory
    }
}

impl<T: Drop> From<AllocFailed<T>> for YamlFault {
    ghost from_gives = { λ _ e. e ≡ Memory };

    fn from(_refused: AllocFailed<T>) -> YamlFault {
        YamlFault::Memory
    }
}
