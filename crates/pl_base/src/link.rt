ghost use Rattle.std.specs.Prelude.{◌≡◌, ◌<◌, ◌≤◌, ℕ, Bool, List, Option, IsTrue, length, take};
ghost use Rattle.std.specs.Prelude.{IfOk, OnOk, OnErr, IfSome, []};
ghost use Rattle.pl_base.specs.Counts.{one_more};
ghost use Rattle.pl_base.specs.Streams.{with_front, with_end};

use crate::failed::Failed;

/// A connection: bytes come and bytes go.
pub trait Link {
    /// The bytes that are left to read, where the link tells them.
    ghost left: { Self → Option (List ℕ) };

    /// Whether a read has told the end.
    ghost ended: { Self → Bool };

    /// The bytes that it has taken, where the link tells them.
    ghost held: { Self → Option (List ℕ) };

    /// How many reads failed. It never falls.
    ghost read_faults: { Self → ℕ };

    /// How many writes failed. It never falls.
    ghost write_faults: { Self → ℕ };

    /// Reads the next bytes into the front of a piece, and says how many. 0 for a piece that isn't
    /// empty is the end. Failed leaves the bytes as they were. Only the end is told as the end, and
    /// only by a read into a piece that isn't empty.
    fn read(&mut self, into: &mut [u8]) -> Result<usize, Failed>
        ensures within { IfOk result (λ count. count ≤ length into.old) }
        ensures bytes { IfOk result (λ count. left self.old ≡ with_front (take count into.new)
            (left self.new)) }
        ensures end { 0 < length into.old →
            IfOk result (λ count. count ≡ 0 → IsTrue (ended self.new) ×
            IfSome (left self.new) (λ rest. rest ≡ [])) }
        ensures quiet { OnOk result (read_faults self.new ≡ read_faults self.old) }
        ensures failed { OnErr result (read_faults self.new ≡ one_more (read_faults self.old)) }
        ensures running { IfOk result (λ count. 0 < count → ended self.new ≡ ended self.old) }
        ensures untold { length into.old ≡ 0 → ended self.new ≡ ended self.old }
        ensures kept { OnErr result (left self.new ≡ left self.old) }
        ensures unended { OnErr result (ended self.new ≡ ended self.old) }
        ensures writing { (held self.new ≡ held self.old) ×
            (write_faults self.new ≡ write_faults self.old) };

    /// Takes a front of the bytes, at least one of a piece that isn't empty, and says how many.
    /// Failed takes none.
    fn write(&mut self, bytes: &[u8]) -> Result<usize, Failed>
        ensures within { IfOk result (λ count. count ≤ length bytes.now) }
        ensures some { 0 < length bytes.now → IfOk result (λ count. 0 < count) }
        ensures bytes { IfOk result (λ count. held self.new ≡
            with_end (held self.old) (take count bytes.now)) }
        ensures quiet { OnOk result (write_faults self.new ≡ write_faults self.old) }
        ensures failed { OnErr result (write_faults self.new ≡ one_more (write_faults self.old)) }
        ensures kept { OnErr result (held self.new ≡ held self.old) }
        ensures reading { (left self.new ≡ left self.old) × (ended self.new ≡ ended self.old) ×
            (read_faults self.new ≡ read_faults self.old) };

    /// How many reads failed.
    fn read_faults(&self) -> u64
        ensures { result ≡ read_faults self.now };

    /// How many writes failed.
    fn write_faults(&self) -> u64
        ensures { result ≡ write_faults self.now };
}
