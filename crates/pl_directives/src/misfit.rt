ghost use Rattle.std.specs.Prelude.{◌≡◌};
ghost use Rattle.pl_directives.specs.Misfits.{problem_of};

use crate::fault::ExpandProblem;

/// What is wrong with a value in a directive's place that isn't what it must be there.
#[derive(Clone, Copy, Debug, PartialEq, Eq)]
pub enum Misfit {
    WrongKind,
    InsertNoMapping,
}

impl Misfit {
    pub fn problem(self) -> ExpandProblem
        ensures { result ≡ problem_of self }
    {
        match self {
            Misfit::WrongKind => ExpandProblem::WrongKind,
            Misfit::InsertNoMapping => ExpandProblem::InsertNoMapping,
        }
    }
}
