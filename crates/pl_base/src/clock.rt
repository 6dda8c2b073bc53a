ghost use Rattle.std.specs.Prelude.{◌≡◌, ◌≤◌, ℕ, Option, IfSome};
ghost use Rattle.pl_base.specs.Streams.{after_next};

use crate::moment::Moment;

/// Tells the moment.
pub trait Clock {
    /// The moments of the calls to come, counted from 0, where the clock tells them.
    ghost coming: { Self → Option (ℕ → ℕ) };

    /// The moment now, at most 2099-12-31T23:59:59Z. It never fails.
    fn now(&mut self) -> Moment
        ensures within { result ≤ 4102444799 }
        ensures moment { IfSome (coming self.old) (λ moment. result ≡ moment 0) }
        ensures later { coming self.new ≡ after_next (coming self.old) };
}
