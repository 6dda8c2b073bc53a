use crate::failed::Failed;
use crate::link::Link;
use crate::sink::Sink;
use crate::source::Source;

/// A source and a sink as one link.
#[derive(Debug, Drop)]
pub struct Paired<In, Out> {
    pub source: In,
    pub sink: Out,
}

impl<In: Source, Out: Sink> Link for Paired<In, Out> {
    ghost left = { λ pair. In.left pair.source };

    ghost ended = { λ pair. In.ended pair.source };

    ghost held = { λ pair. Out.held pair.sink };

    ghost read_faults = { λ pair. In.faults pair.source };

    ghost write_faults = { λ pair. Out.faults pair.sink };

    fn read(&mut self, into: &mut [u8]) -> Result<usize, Failed> {
        self.source.read(into)
    }

    fn write(&mut self, bytes: &[u8]) -> Result<usize, Failed> {
        self.sink.write(bytes)
    }

    fn read_faults(&self) -> u64 {
        self.source.faults()
    }

    fn write_faults(&self) -> u64 {
        self.sink.faults()
    }
}
