ghost use Rattle.std.specs.Prelude.{Ok};
ghost use Rattle.pl_plan.specs.Laws.{IsSound};
ghost use Rattle.pl_plan.specs.Plans.{IsPlanOf};
ghost use Rattle.pl_results.specs.Nodes.{CanRun};

use pl_plan::Plan;
use pl_schema::Pipeline;

/// The law that each plan that `plan_of` makes of a pipeline can run: what conditions ask of a plan
/// holds of it. The two premises are what `plan_of` says of its plan.
pub fn each_plan_can_run(pipeline: &Pipeline, plan: &Plan)
    requires is { IsPlanOf pipeline.now (Ok plan.now) }
    requires sound { IsSound plan.now }
    ensures { CanRun plan.now }
{}
