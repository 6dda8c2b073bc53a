//! Fields of objects.

ghost use Rattle.std.specs.Prelude.{Result, map};
ghost use Rattle.serde_json.specs.Data.{Data};
ghost use Rattle.pl_bodies.specs.Fields.{field, field_or, only};
ghost use Rattle.pl_bodies.specs.Meaning.{Gives};
ghost use Rattle.pl_trees.specs.Trees.{seen};
ghost use Rattle.pl_bodies.specs.declared.fault.BodyFault.{BodyFault as the_fault};

use crate::fault::BodyFault;
use pl_trees::{Tree, get, has_only};
use std::alloc::Global;

/// What can be a field's value.
pub(crate) trait Field: Drop {
    /// What a value says.
    ghost meant: { Data → Result Self the_fault };

    /// What a value says. Bad where it says nothing.
    fn read(alloc: Global, value: &Tree<'_>) -> Result<Self, BodyFault>
        ensures { Gives result (meant (seen value.now)) };
}

/// That a value is an object with no other fields than these.
pub(crate) fn only(object: &Tree<'_>, names: &[&str]) -> Result<(), BodyFault>
    ensures { Gives result (only (map (λ name. name.now) names.now) (seen object.now)) }
{
    if has_only(object, names) {
        Ok(())
    } else {
        Err(BodyFault::Bad)
    }
}

/// A field that must be there.
pub(crate) fn required<F: Field>(
    alloc: Global,
    object: &Tree<'_>,
    name: &str,
) -> Result<F, BodyFault>
    ensures { Gives result (field F.meant name.now (seen object.now)) }
{
    match get(object, name) {
        Some(value) => F::read(alloc, value),
        None => Err(BodyFault::Bad),
    }
}

/// A field, or its default where it isn't there.
pub(crate) fn optional<F: Field>(
    alloc: Global,
    object: &Tree<'_>,
    name: &str,
    default: F,
) -> Result<F, BodyFault>
    ensures { Gives result (field_or F.meant default name.now (seen object.now)) }
{
    match get(object, name) {
        Some(value) => F::read(alloc, value),
        None => Ok(default),
    }
}
