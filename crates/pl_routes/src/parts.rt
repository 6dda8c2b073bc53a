ghost use Rattle.std.specs.Prelude.{◌≡◌, IfOk, map};
ghost use Rattle.pl_routes.specs.Parts.{Gives, said, spelled_parts};

use crate::fault::RouteFault;
use percent_encoding::{DecodeError, percent_decode};
use pl_base::{Memory, Text};
use std::alloc::{AllocError, Global};

/// The parts of a path, as they are spelled: what stands before, between and behind its slashes.
pub fn parts_of(alloc: Global, target: &str) -> Result<Vec<&str>, Memory>
    ensures { IfOk result (λ parts. map (λ part. part.now) parts.items ≡
        spelled_parts target.entry.now) }
{
    Ok(cut(alloc, target)?)
}

/// The same, in the terms of the allocator.
fn cut(alloc: Global, target: &str) -> Result<Vec<&str>, AllocError>
    ensures { IfOk result (λ parts. map (λ part. part.now) parts.items ≡
        spelled_parts target.entry.now) }
{
    target.split('/').collect::<Vec<_>>(alloc)
}

/// What a part says: its escapes are read, and a `%` without two hexadecimal digits stays.
/// RouteUnknown where the bytes aren't UTF-8.
#[tactic(auto, unfolding(crate::specs::Parts::said))]
pub fn decoded(alloc: Global, part: &str) -> Result<Text, RouteFault>
    ensures { Gives result (said part.now) }
{
    match percent_decode(part.as_bytes()).decode_utf8(alloc) {
        Ok(text) => Ok(Text::from_string(text.into_owned(alloc)?)),
        Err(DecodeError::OutOfMemory) => Err(RouteFault::Memory),
        Err(_) => Err(RouteFault::RouteUnknown),
    }
}
