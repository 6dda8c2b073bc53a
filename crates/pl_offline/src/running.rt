ghost use Rattle.pl_offline.specs.Running.{Runs};
ghost use Rattle.pl_streams.specs.Flows.{inflow, outflow};

use crate::ending::Ending;
use crate::output::{Output, output_of};
use pl_base::{Argument, List, Sink, Source};
use pl_budgets::Meter;
use pl_streams::{Unread, read_to_end, write_all};
use std::alloc::Global;

/// Compiles the bundle that a source holds, as a run with these arguments, onto a sink.
///
/// The source is read to its end. Where its bytes are a bundle (files behind lines `%%% REPO REF
/// PATH`, the root file first), the sink gets the text of the pipeline's plan, or the line `refused
/// CODE REPO REF PATH:LINE:COL` of the first refusal; where they are none, nothing. At most
/// 67,108,864 bytes are taken, however it ends. The text is made before the first byte is written,
/// so where memory is wanting nothing is written; the ending tells the budget that was passed then.
#[tactic(auto, using(crate::proofs::Telling::cut_memory, crate::proofs::Telling::whole_memory))]
pub fn compile_bundle<S: Source, K: Sink>(
    alloc: Global,
    arguments: &List<Argument>,
    source: &mut S,
    sink: &mut K,
) -> Ending
    ensures { Runs arguments.now result (inflow S.Source source.old) (inflow S.Source source.new)
        (outflow K.Sink sink.old) (outflow K.Sink sink.new) }
{
    let bytes = match read_to_end(alloc, source) {
        Ok(bytes) => bytes,
        Err(Unread::ReadFault) => return Ending::ReadFault,
        Err(Unread::Spent) => return Ending::Spent,
        Err(Unread::Memory) => return Ending::Memory(None),
    };
    let Ok(meter) = Meter::new(alloc) else {
        return Ending::Memory(None);
    };
    match output_of(alloc, &meter, bytes, arguments) {
        Ok(Output::Plan(text)) => match write_all(sink, text.as_str().as_bytes()) {
            Ok(()) => Ending::Compiled,
            Err(_) => Ending::WriteFault,
        },
        Ok(Output::Line(line)) => match write_all(sink, line.as_str().as_bytes()) {
            Ok(()) => Ending::Refused,
            Err(_) => Ending::WriteFault,
        },
        Ok(Output::Nothing) => Ending::NotBundle,
        Err(_) => Ending::Memory(meter.passed()),
    }
}
