use pl_base::{Bytes, List, MemSink, MemSource, Memory, Source};
use pl_streams::{Unread, read_to_end, write_all};
use std::alloc::Global;
use std::test::Fail;

fn source(alloc: Global, piece: usize, failing: &[u64]) -> Result<MemSource, Memory> {
    let bytes = Bytes::from_slice(alloc, b"a bundle")?;
    let failing = List::from_slice(alloc, failing)?;
    Ok(MemSource::new(bytes, piece, failing))
}

fn is_whole(alloc: Global, piece: usize) -> Result<bool, Memory> {
    let mut source = source(alloc, piece, &[])?;
    let read = read_to_end(alloc, &mut source);
    Ok(match &read {
        Ok(bytes) => bytes.as_slice() == b"a bundle".as_slice(),
        Err(_) => false,
    })
}

fn fault_at(alloc: Global, call: u64) -> Result<bool, Memory> {
    let mut source = source(alloc, 3, &[call])?;
    let read = read_to_end(alloc, &mut source);
    Ok(matches!(&read, Err(Unread::ReadFault)) && source.faults() == 1)
}

#[test]
fn a_source_is_read_in_whatever_pieces(rt: HostRuntime) -> Result<(), Fail> {
    let alloc = rt.alloc();
    for piece in [0, 1, 2, 3, 7, 8, 9, 100_000] {
        assert!(rt; is_whole(alloc, piece)?, "{piece}");
    }
    Ok(())
}

#[test]
fn a_read_that_fails_is_told(rt: HostRuntime) -> Result<(), Fail> {
    let alloc = rt.alloc();
    for call in [1, 2, 3, 4] {
        assert!(rt; fault_at(alloc, call)?, "{call}");
    }
    Ok(())
}

// Whether bytes are written whole, and what the sink holds then.
fn writes(alloc: Global, room: usize, piece: usize, held: &[u8]) -> Result<bool, Memory> {
    let mut sink = MemSink::new(alloc, room, piece, List::new(alloc))?;
    let is_done = write_all(&mut sink, b"a line\n").is_ok();
    Ok(is_done == (held.len() == 7) && sink.bytes() == held)
}

#[test]
fn bytes_are_written_whole_or_their_beginning(rt: HostRuntime) -> Result<(), Fail> {
    let alloc = rt.alloc();
    for piece in [1, 2, 6, 7, 8] {
        assert!(rt; writes(alloc, 7, piece, b"a line\n")?, "{piece}");
        assert!(rt; writes(alloc, 6, piece, b"a line")?, "{piece}");
        assert!(rt; writes(alloc, 0, piece, b"")?, "{piece}");
    }
    Ok(())
}
