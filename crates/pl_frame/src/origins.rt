ghost use Rattle.std.specs.Prelude.{◌≡◌, IfOk};
ghost use Rattle.pl_frame.specs.Origins.{literal_at, made_at};

use crate::frame::Frame;
use pl_base::{Crossing, ExactCopy, Memory, Origin, Place};
use std::alloc::Global;

/// Where what is written at a place of the frame's file comes from: that place, across the borders
/// that the frame crossed. Memory where memory is wanting.
pub fn literal_at(alloc: Global, frame: &Frame, place: &Place) -> Result<Origin, Memory>
    ensures { IfOk result (λ origin. origin ≡ literal_at frame.now place.now) }
{
    let source = place.copy(alloc)?;
    let crossings = frame.crossings.copy(alloc)?;
    Ok(Origin { source, crossings })
}

/// Where what an expression makes comes from: the expression's place, across the borders that the
/// frame crossed, and then made. Memory where memory is wanting.
pub fn made_at(alloc: Global, frame: &Frame, place: &Place) -> Result<Origin, Memory>
    ensures { IfOk result (λ origin. origin ≡ made_at frame.now place.now) }
{
    let source = place.copy(alloc)?;
    let crossings = frame.crossings.with(alloc, Crossing::Made)?;
    Ok(Origin { source, crossings })
}
