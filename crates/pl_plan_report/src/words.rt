ghost use Rattle.std.specs.Prelude.{◌≡◌};
ghost use Rattle.pl_plan_report.specs.Words as spec;

use pl_base::{Behaviour, Crossing, Kind};

/// The word for a kind of resource.
pub fn kind_word(kind: Kind) -> &'static str
    ensures { result.now ≡ spec.kind_word kind }
{
    match kind {
        Kind::Environment => "environment",
        Kind::Connection => "connection",
        Kind::Group => "group",
        Kind::Pool => "pool",
        Kind::Repository => "repository",
    }
}

/// How a behaviour of locks is written in a pipeline.
pub fn behaviour_word(behaviour: Behaviour) -> &'static str
    ensures { result.now ≡ spec.behaviour_word behaviour }
{
    match behaviour {
        Behaviour::Sequential => "sequential",
        Behaviour::RunLatest => "runLatest",
    }
}

/// The word for a border that a node crossed.
pub fn crossing_word(crossing: &Crossing) -> &'static str
    ensures { result.now ≡ spec.crossing_word crossing.now }
{
    match crossing {
        Crossing::Extends(_) => "extends",
        Crossing::Include(_, _) => "include",
        Crossing::Argument(_, _) => "argument",
        Crossing::Made => "made",
    }
}
