ghost use Rattle.pl_hall.specs.Grown.{SessionsGrow};
ghost use Rattle.pl_service.specs.Desk.{Parts};

/// Whoever acts as a clerk does, by parts as those of its seat: behind a session it is at the same
/// lock and of the same number, has seen no less, and its own entries grew by exactly those of this
/// session's messages, in their order.
pub fn sessions_grow<D>()
    ensures { (parts : D → Parts) → SessionsGrow parts }
{}
