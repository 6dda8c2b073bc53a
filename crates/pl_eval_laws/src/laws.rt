ghost use Rattle.pl_eval_laws.specs.Handing.{HandsOn};

/// Each node and each key of an expression's value was made where the expression stands, or has the
/// origin of a node or a key of a value that some root name holds: look-ups, projections, `iif` and
/// `coalesce` hand origins on as they are, and all else is made (Microsoft Learn, Azure Pipelines,
/// "Expressions"). So no expression gives a node the origin of something that no name holds.
///
/// It speaks of every expression that the grammar gives, in every mode, over all names.
pub fn values_are_handed_on()
    ensures { HandsOn }
{}
