ghost use Rattle.std.specs.Prelude.{◌≡◌, ◌<◌, ◌++◌, length, take, IfOk};
ghost use Rattle.pl_streams.specs.Flows.{inflow};
ghost use Rattle.pl_streams.specs.Whole.{IsRead, taken_limit};

use pl_base::{Bytes, Failed, List, Source};
use std::alloc::Global;

/// The most bytes that are taken from a source.
pub const TAKEN_LIMIT: usize = 67_108_864;

/// How many bytes one read asks for at most.
pub const PIECE: usize = 65_536;

/// Why a source wasn't read to its end.
#[derive(Clone, Copy, Debug, PartialEq, Eq)]
pub enum Unread {
    /// A read failed.
    ReadFault,
    /// As many bytes were taken as may be, whether or not more are left.
    Spent,
    /// Memory was wanting.
    Memory,
}

/// All bytes of a source, in whatever pieces they come. Ok where the source told its end behind
/// fewer than `TAKEN_LIMIT` bytes. ReadFault where a read failed, and its count of faults rose;
/// Spent where `TAKEN_LIMIT` bytes were taken; Memory where memory was wanting. At most
/// `TAKEN_LIMIT` bytes are taken, whatever the answer. What was read before an error is lost.
pub fn read_to_end<S: Source>(alloc: Global, source: &mut S) -> Result<Bytes, Unread>
    ensures { IsRead result (inflow S.Source source.old) (inflow S.Source source.new) }
{
    let mut bytes = Vec::new(alloc);
    let mut piece = [0; PIECE];
    while bytes.len() < TAKEN_LIMIT {
        let room = PIECE.min(TAKEN_LIMIT - bytes.len());
        match source.read(piece.split_at_mut(room).0) {
            Ok(0) => return Ok(List::from_vec(bytes)),
            Ok(count) => {
                if bytes.extend_from_slice(piece.split_at(count).0).is_err() {
                    return Err(Unread::Memory);
                }
            }
            Err(Failed) => return Err(Unread::ReadFault),
        }
    }
    Err(Unread::Spent)
}
