ghost use Rattle.std.specs.Prelude.{◌≡◌, ◌<◌, ◌≤◌, ◌-◌, ◌↔◌, ◌⊎◌, Some, [], IsTrue, IfOk, OnOk};
ghost use Rattle.std.specs.Prelude.{OnErr, IsErr, length, max, min, take};
ghost use Rattle.pl_base.specs.Counts.{one_more};
ghost use Rattle.pl_base.specs.Streams.{with_end, is_listed};
ghost use Rattle.std.specs.Vec.{vec_capacity};

use crate::failed::Failed;
use crate::list::List;
use crate::memory::Memory;
use crate::sink::Sink;
use std::alloc::Global;

/// A sink in memory that takes pieces of a given size at most. The room for its bytes is made with
/// it.
#[derive(Debug, Drop)]
pub struct MemSink {
    bytes: Vec<u8>,
    room: usize,
    piece: usize,
    failing: List<u64>,
    calls: u64,
    faults: u64,
    ghost within: { length bytes.items ≤ room },
    ghost made: { room ≤ vec_capacity bytes },
    ghost some: { 0 < piece },
}

impl MemSink {
    /// A sink with room for so many bytes, of which a write takes at most `piece` (0 counts as 1).
    /// The calls of `write` whose numbers are listed, counted from 1, fail, and so does a write of
    /// a piece that isn't empty where no room is left.
    pub fn new(
        alloc: Global,
        room: usize,
        piece: usize,
        failing: List<u64>,
    ) -> Result<MemSink, Memory>
        ensures empty { IfOk result (λ sink. sink.bytes.items ≡ []) }
        ensures quiet { IfOk result (λ sink. sink.faults ≡ 0) }
        ensures room { IfOk result (λ sink. sink.room ≡ room) }
        ensures piece { IfOk result (λ sink. sink.piece ≡ max piece 1) }
        ensures failing { IfOk result (λ sink. sink.failing ≡ failing) }
        ensures calls { IfOk result (λ sink. sink.calls ≡ 0) }
    {
        Ok(MemSink {
            bytes: Vec::with_capacity(alloc, room)?,
            room,
            piece: piece.max(1),
            failing,
            calls: 0,
            faults: 0,
        })
    }

    /// The bytes that were written, in order.
    pub fn bytes(&self) -> &[u8]
        ensures { result.now ≡ self.now.bytes.items }
    {
        self.bytes.as_slice()
    }
}

impl Sink for MemSink {
    ghost held = { λ sink. Some sink.bytes.items };

    ghost faults = { λ sink. sink.faults };

    fn write(&mut self, bytes: &[u8]) -> Result<usize, Failed>
        ensures within { IfOk result (λ count. count ≤ length bytes.now) }
        ensures some { 0 < length bytes.now → IfOk result (λ count. 0 < count) }
        ensures bytes { IfOk result (λ count. Some self.new.bytes.items ≡
            with_end (Some self.old.bytes.items) (take count bytes.now)) }
        ensures quiet { OnOk result (self.new.faults ≡ self.old.faults) }
        ensures failed { OnErr result (self.new.faults ≡ one_more self.old.faults) }
        ensures kept { OnErr result (Some self.new.bytes.items ≡ Some self.old.bytes.items) }
        ensures counted { self.new.calls ≡ one_more self.old.calls }
        ensures listed { self.new.failing ≡ self.old.failing }
        ensures stays { (self.new.piece ≡ self.old.piece) × (self.new.room ≡ self.old.room) }
        ensures failing { IsErr result ↔ (IsTrue (is_listed self.new.calls self.old.failing) ⊎
            ((0 < length bytes.now) × (length self.old.bytes.items ≡ self.old.room))) }
        ensures most { IfOk result (λ count. count ≡ min (min (length bytes.now)
            (self.old.room - length self.old.bytes.items)) self.old.piece) }
    {
        self.calls = self.calls.saturating_add(1);
        let left = self.room - self.bytes.len();
        let count = bytes.len().min(left).min(self.piece);
        if is_full(left, bytes) || self.failing.as_slice().contains(&self.calls) {
            self.faults = self.faults.saturating_add(1);
            return Err(Failed);
        }
        match self.bytes.extend_from_slice(&bytes[..count]) {
            Ok(()) => Ok(count),
            Err(_) => {
                self.faults = self.faults.saturating_add(1);
                Err(Failed)
            }
        }
    }

    fn faults(&self) -> u64 {
        self.faults
    }
}

// Whether no room is left for bytes, of which there are some.
fn is_full(left: usize, bytes: &[u8]) -> bool
    ensures { IsTrue result ↔ ((0 < length bytes.now) × (left ≡ 0)) }
{
    left == 0 && !bytes.is_empty()
}
