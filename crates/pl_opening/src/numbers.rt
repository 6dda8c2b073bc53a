//! The service's numbers.

ghost use Rattle.std.specs.Prelude.{◌≡◌};
ghost use Rattle.std.specs.Option.{option_copied, option_map_or};

use pl_core::Numbers;
use pl_keeper::Meta;

/// The numbers from which a service goes on, each 0 where no row was ever changed.
pub(crate) fn numbers_of(told: Option<&Meta>) -> Numbers
    ensures moment { result.moment ≡
        option_map_or (λ numbers. numbers.moment) (option_copied told.entry) 0 }
    ensures run { result.run ≡
        option_map_or (λ numbers. numbers.run) (option_copied told.entry) 0 }
    ensures version { result.version ≡
        option_map_or (λ numbers. numbers.version) (option_copied told.entry) 0 }
{
    match told {
        Some(told) => Numbers {
            moment: told.moment,
            run: told.run,
            version: told.version,
        },
        None => Numbers {
            moment: 0,
            run: 0,
            version: 0,
        },
    }
}

/// The number of the next change of a row, and 0 where none was ever changed.
pub(crate) fn change_of(told: Option<&Meta>) -> u64
    ensures { result ≡ option_map_or (λ numbers. numbers.change) (option_copied told.entry) 0 }
{
    match told {
        Some(told) => told.change,
        None => 0,
    }
}
