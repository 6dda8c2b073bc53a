ghost use Rattle.std.specs.Prelude.{◌≡◌, Some, [], false, IfOk};
ghost use Rattle.pl_listener.specs.Fresh.{IsFresh};
ghost use Rattle.pl_sessions.specs.Told.{Told, told};

use pl_base::{Bytes, Link, List, MemSink, MemSource, Memory, Paired};
use std::alloc::Global;

/// One who comes to a door in memory, and is served by a link.
pub trait Visitor {
    type Link: Link + Drop + Send;

    /// What the link tells when it is given.
    ghost comes: { Self → Told };

    /// The link, of which nothing was read yet and to which nothing was written.
    fn link(&self, alloc: Global) -> Result<Self::Link, Memory>
        ensures tells { IfOk result (λ link. told Self.Link.Link link ≡ comes self.now) }
        ensures fresh { IfOk result (λ link. IsFresh (told Self.Link.Link link)) };
}

/// One who sends these bytes, of which a read gives at most `piece`, and has room for so many bytes
/// of replies, of which a write takes at most `piece` (0 counts as 1). The calls of the link's
/// `read` and `write` whose numbers are listed, counted apart from 1, fail.
#[derive(Debug, Drop)]
pub struct MemVisitor {
    pub bytes: Bytes,
    pub piece: usize,
    pub room: usize,
    pub failing_reads: List<u64>,
    pub failing_writes: List<u64>,
}

impl Visitor for MemVisitor {
    type Link = Paired<MemSource, MemSink>;

    ghost comes = { λ visitor. record {
      left = Some visitor.bytes;
      ended = false;
      held = Some [];
      read_faults = 0;
      write_faults = 0;
    } };

    fn link(&self, alloc: Global) -> Result<Paired<MemSource, MemSink>, Memory> {
        let bytes = List::from_slice(alloc, self.bytes.as_slice())?;
        let failing_reads = List::from_slice(alloc, self.failing_reads.as_slice())?;
        let failing_writes = List::from_slice(alloc, self.failing_writes.as_slice())?;
        Ok(Paired {
            source: MemSource::new(bytes, self.piece, failing_reads),
            sink: MemSink::new(alloc, self.room, self.piece, failing_writes)?,
        })
    }
}
