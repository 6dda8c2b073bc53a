ghost use Rattle.std.specs.Prelude.{◌≡◌};
ghost use Rattle.pl_depends.specs.Codes.{code_of};

use pl_base::{List, Text};
use pl_schema_parts::PlacedFault;

/// What is wrong with a pipeline each of whose objects reads.
#[derive(Debug, Drop, PartialEq, Eq)]
pub enum PlanCode {
    /// L1: a name that is waited for, and that no stage, or no job of the stage, has.
    UnknownDependency,
    /// L2: stages, or jobs of one stage, that wait for one another: each of these waits for the
    /// next one, and the last one for the first.
    Cycle(List<Text>),
    /// L3: more than 64 stages.
    TooManyStages,
    /// L4: more than 256 jobs, each leg being one.
    TooManyJobs,
    /// L5: a matrix without a leg, or a leg that isn't one.
    BadLeg,
    /// L6: more than 2,000 steps, those of a job once for all its legs.
    TooManySteps,
}

impl PlanCode {
    /// The code's number, `L1` to `L6`.
    pub fn code(&self) -> &'static str
        ensures { result.now ≡ code_of self.now }
    {
        match self {
            PlanCode::UnknownDependency => "L1",
            PlanCode::Cycle(_) => "L2",
            PlanCode::TooManyStages => "L3",
            PlanCode::TooManyJobs => "L4",
            PlanCode::BadLeg => "L5",
            PlanCode::TooManySteps => "L6",
        }
    }
}

/// Why a pipeline has no plan: what is wrong and where, or want of memory.
pub type PlanFault = PlacedFault<PlanCode>;
