ghost use Rattle.pl_service.specs.Grown.{DesksGrow};

/// A desk that acted on messages, one after the other, is the same desk behind them; it has seen no
/// less, and its own entries grew by exactly those of these messages, in their order.
pub fn desks_grow()
    ensures { DesksGrow }
{}
