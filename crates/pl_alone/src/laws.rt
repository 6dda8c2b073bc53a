ghost use Rattle.pl_alone.specs.Lasting.{DesksLast};

/// A desk that acted on messages, one after the other, is a desk of the same service behind them.
/// Its entries are a legal history if they were one. Where its rows are told and were those of the
/// service, they are those of the service. The keeper's count rose where it failed, and nowhere
/// else.
pub fn desks_last()
    ensures { DesksLast }
{}
