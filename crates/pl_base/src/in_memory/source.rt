ghost use Rattle.std.specs.Prelude.{◌≡◌, ◌<◌, ◌≤◌, ◌↔◌, [], Some, drop, take, length, max, false};
ghost use Rattle.std.specs.Prelude.{IsTrue, IfOk, OnOk, OnErr, IsErr, IfSome, min};
ghost use Rattle.pl_base.specs.Counts.{one_more};
ghost use Rattle.pl_base.specs.Streams.{with_front, is_listed};

use crate::failed::Failed;
use crate::list::{Bytes, List};
use crate::source::Source;

/// Bytes in memory that are read in pieces of a given size at most.
#[derive(Debug, Drop)]
pub struct MemSource {
    bytes: Bytes,
    at: usize,
    piece: usize,
    failing: List<u64>,
    calls: u64,
    ended: bool,
    faults: u64,
    ghost within: { at ≤ length bytes },
    ghost some: { 0 < piece },
}

impl MemSource {
    /// These bytes, of which a read gives at most `piece` (0 counts as 1). The calls of `read`
    /// whose numbers are listed, counted from 1, fail.
    pub fn new(bytes: Bytes, piece: usize, failing: List<u64>) -> MemSource
        ensures bytes { result.bytes ≡ bytes }
        ensures start { result.at ≡ 0 }
        ensures quiet { result.faults ≡ 0 }
        ensures running { result.ended ≡ false }
        ensures piece { result.piece ≡ max piece 1 }
        ensures failing { result.failing ≡ failing }
        ensures calls { result.calls ≡ 0 }
    {
        MemSource {
            bytes,
            at: 0,
            piece: piece.max(1),
            failing,
            calls: 0,
            ended: false,
            faults: 0,
        }
    }
}

impl Source for MemSource {
    ghost left = { λ source. Some (drop source.at source.bytes) };

    ghost ended = { λ source. source.ended };

    ghost faults = { λ source. source.faults };

    fn read(&mut self, into: &mut [u8]) -> Result<usize, Failed>
        ensures within { IfOk result (λ count. count ≤ length into.old) }
        ensures bytes { IfOk result (λ count. Some (drop self.old.at self.old.bytes) ≡
            with_front (take count into.new) (Some (drop self.new.at self.new.bytes))) }
        ensures end { 0 < length into.old →
            IfOk result (λ count. count ≡ 0 → IsTrue self.new.ended ×
            IfSome (Some (drop self.new.at self.new.bytes)) (λ rest. rest ≡ [])) }
        ensures quiet { OnOk result (self.new.faults ≡ self.old.faults) }
        ensures failed { OnErr result (self.new.faults ≡ one_more self.old.faults) }
        ensures running { IfOk result (λ count. 0 < count → self.new.ended ≡ self.old.ended) }
        ensures untold { length into.old ≡ 0 → self.new.ended ≡ self.old.ended }
        ensures kept { OnErr result (Some (drop self.new.at self.new.bytes) ≡
            Some (drop self.old.at self.old.bytes)) }
        ensures unended { OnErr result (self.new.ended ≡ self.old.ended) }
        ensures counted { self.new.calls ≡ one_more self.old.calls }
        ensures listed { self.new.failing ≡ self.old.failing }
        ensures stays { (self.new.piece ≡ self.old.piece) × (self.new.bytes ≡ self.old.bytes) }
        ensures most { IfOk result (λ count. count ≡
            min (min (length (drop self.old.at self.old.bytes)) (length into.old)) self.old.piece) }
        ensures failing { IsErr result ↔ IsTrue (is_listed self.new.calls self.old.failing) }
    {
        self.calls = self.calls.saturating_add(1);
        if self.failing.as_slice().contains(&self.calls) {
            self.faults = self.faults.saturating_add(1);
            return Err(Failed);
        }
        let rest = self.bytes.as_slice().split_at(self.at).1;
        let count = copy_front(rest, into, self.piece);
        if count == 0 && !into.is_empty() {
            self.ended = true;
        }
        self.at += count;
        Ok(count)
    }

    fn faults(&self) -> u64 {
        self.faults
    }
}

// Copies the front of `from` into the front of `into`, `most` bytes at most, and says how many.
fn copy_front(from: &[u8], into: &mut [u8], most: usize) -> usize
    requires { 0 < most }
    ensures within { result ≤ length into.old }
    ensures there { result ≤ length from.now }
    ensures copied { take result into.new ≡ take result from.now }
    ensures end { 0 < length into.old → result ≡ 0 → from.now ≡ [] }
    ensures most { result ≡ min (min (length from.now) (length into.old)) most }
{
    let count = from.len().min(into.len()).min(most);
    let (front, _) = into.split_at_mut(count);
    front.copy_from_slice(from.split_at(count).0);
    count
}
