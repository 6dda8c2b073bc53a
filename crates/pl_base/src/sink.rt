ghost use Rattle.std.specs.Prelude.{◌≡◌, ◌<◌, ◌≤◌, ℕ, List, Option, length, take, IfOk, OnOk};
ghost use Rattle.std.specs.Prelude.{OnErr};
ghost use Rattle.pl_base.specs.Counts.{one_more};
ghost use Rattle.pl_base.specs.Streams.{with_end};

use crate::failed::Failed;

/// Bytes that go outside.
pub trait Sink {
    /// The bytes that it has taken, where the sink tells them.
    ghost held: { Self → Option (List ℕ) };

    /// How many writes failed. It never falls.
    ghost faults: { Self → ℕ };

    /// Takes a front of the bytes, at least one of a piece that isn't empty, and says how many.
    /// Failed takes none.
    fn write(&mut self, bytes: &[u8]) -> Result<usize, Failed>
        ensures within { IfOk result (λ count. count ≤ length bytes.now) }
        ensures some { 0 < length bytes.now → IfOk result (λ count. 0 < count) }
        ensures bytes { IfOk result (λ count. held self.new ≡
            with_end (held self.old) (take count bytes.now)) }
        ensures quiet { OnOk result (faults self.new ≡ faults self.old) }
        ensures failed { OnErr result (faults self.new ≡ one_more (faults self.old)) }
        ensures kept { OnErr result (held self.new ≡ held self.old) };

    /// How many writes failed.
    fn faults(&self) -> u64
        ensures { result ≡ faults self.now };
}
