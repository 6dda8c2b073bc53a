ghost use Rattle.std.specs.Prelude.{◌≡◌};

use std::alloc::AllocError;

/// Why a method and a target lead nowhere.
#[derive(Clone, Copy, Debug, PartialEq, Eq)]
pub enum RouteFault {
    /// The target has a `?`, no row of the table has its path, or a part of it breaks its rule: 404
    /// `route.unknown`.
    RouteUnknown,
    /// The row doesn't have this method: 405 `method.unknown`.
    MethodUnknown,
    /// Memory is wanting.
    Memory,
}

impl From<AllocError> for RouteFault {
    ghost use Rattle.pl_routes.specs.declared.fault.RouteFault.TheVariants.{Memory};

    ghost from_gives = { λ _ e. e ≡ Memory };

    fn from(_refused: AllocError) -> RouteFault {
        RouteFault::Memory
    }
}

impl From<pl_base::Memory> for RouteFault {
    ghost use Rattle.pl_routes.specs.declared.fault.RouteFault.TheVariants.{Memory};

    ghost from_gives = { λ _ e. e ≡ Memory };

    fn from(_refused: pl_base::Memory) -> RouteFault {
        RouteFault::Memory
    }
}
