ghost use Rattle.std.specs.Prelude.{◌≡◌, IfOk};
ghost use Rattle.pl_outfit.specs.Outfit.{outside};
ghost use Rattle.pl_rehearse.specs.Rehearse.{IsLine, Rehearses, WritesLine, nobody};

use pl_base::{Digest, Failed, Memory, Text};
use pl_outfit::{Outfit, Status};
use pl_rehearsal::{rehearse as rehearsed, summary_line};
use pl_sessions::write_all;
use std::alloc::Global;

/// Rehearses so many generated runs on a service of its own, and writes what they come to, as `runs
/// N jobs J superseded S` and a line feed, or the beginning of that where a write fails. Nothing is
/// read.
pub fn rehearse<O: Outfit>(alloc: Global, runs: u64, outfit: &mut O) -> Status
    ensures { Rehearses runs (outside O.In.Source O.Out.Sink (O.view outfit.old)) result
        (outside O.In.Source O.Out.Sink (O.view outfit.new)) }
{
    match line_of(alloc, runs) {
        Ok(line) => write_line(outfit, &line),
        Err(Memory) => Status::Memory,
    }
}

// Writes a line, or its beginning where a write fails.
fn write_line<O: Outfit>(outfit: &mut O, line: &Text) -> Status
    ensures { WritesLine line.now (outside O.In.Source O.Out.Sink (O.view outfit.old)) result
        (outside O.In.Source O.Out.Sink (O.view outfit.new)) }
{
    match write_all(outfit.ends(), line.as_bytes()) {
        Ok(()) => Status::Finished,
        Err(Failed) => Status::WriteFault,
    }
}

// What so many runs come to, as a line.
fn line_of(alloc: Global, runs: u64) -> Result<Text, Memory>
    ensures { IfOk result (IsLine runs) }
{
    let summary = rehearsed(alloc, nobody(), runs)?;
    let line = summary_line(alloc, &summary)?;
    Ok(line)
}

// The digest of the token with which the requests come. No token is asked for, since none is read.
fn nobody() -> Digest
    ensures { result ≡ nobody }
{
    Digest { bytes: [0; 32] }
}
