ghost use Rattle.std.specs.Prelude.{◌≡◌, ◌<◌, ◌≤◌, ℕ, Bool, List, Option, IsTrue, length, take};
ghost use Rattle.std.specs.Prelude.{IfOk, OnOk, OnErr, IfSome, []};
ghost use Rattle.pl_base.specs.Counts.{one_more};
ghost use Rattle.pl_base.specs.Streams.{with_front};

use crate::failed::Failed;

/// Bytes that come from outside.
pub trait Source {
    /// The bytes that are left, where the source tells them.
    ghost left: { Self → Option (List ℕ) };

    /// Whether a read has told the end.
    ghost ended: { Self → Bool };

    /// How many reads failed. It never falls.
    ghost faults: { Self → ℕ };

    /// Reads the next bytes into the front of a piece, and says how many. 0 for a piece that isn't
    /// empty is the end. Failed leaves the bytes as they were. Only the end is told as the end, and
    /// only by a read into a piece that isn't empty.
    fn read(&mut self, into: &mut [u8]) -> Result<usize, Failed>
        ensures within { IfOk result (λ count. count ≤ length into.old) }
        ensures bytes { IfOk result (λ count. left self.old ≡ with_front (take count into.new)
            (left self.new)) }
        ensures end { 0 < length into.old →
            IfOk result (λ count. count ≡ 0 → IsTrue (ended self.new) ×
            IfSome (left self.new) (λ rest. rest ≡ [])) }
        ensures quiet { OnOk result (faults self.new ≡ faults self.old) }
        ensures failed { OnErr result (faults self.new ≡ one_more (faults self.old)) }
        ensures running { IfOk result (λ count. 0 < count → ended self.new ≡ ended self.old) }
        ensures untold { length into.old ≡ 0 → ended self.new ≡ ended self.old }
        ensures kept { OnErr result (left self.new ≡ left self.old) }
        ensures unended { OnErr result (ended self.new ≡ ended self.old) };

    /// How many reads failed.
    fn faults(&self) -> u64
        ensures { result ≡ faults self.now };
}
