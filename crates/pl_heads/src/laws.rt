//! Laws of what stands at the front.

ghost use Rattle.pl_heads.specs.Fronts.{FrontsStay, OneFront};

/// A head at the front stays when more bytes come, and so does a fault.
pub fn fronts_stay()
    ensures { FrontsStay }
{}

/// What stands at the front of bytes is one head, one fault, or the beginning of one of these.
/// While the bytes end inside a target, the fault of a target that isn't UTF-8 may be told later.
pub fn one_front()
    ensures { OneFront }
{}
