ghost use Rattle.pl_leg_limits.specs.Alike.{LegsAreAlike};

/// The law of the limits of legs: in the plan of whatever sources compile to, the jobs of one name
/// in a stage, which are the legs of one job, have one limit of how many may run at once. For a
/// stage's jobs are written with a name each, and no two with one.
pub fn leg_laws()
    ensures alike { LegsAreAlike }
{}
