ghost use Rattle.std.specs.Prelude.{◌≡◌, Result};
ghost use Rattle.pl_schema_parts.specs.declared.pipeline.Pipeline.{Pipeline};
ghost use Rattle.pl_depends.specs.Gives.{Fault};
ghost use Rattle.pl_plan.specs.Planned.{IsPlanned};
ghost use Rattle.pl_plan.specs.Plans.{IsPlanOf};
ghost use Rattle.pl_plan.specs.declared.plan.Plan.{Plan};

/// Laws of plans: a pipeline has one plan, or one first fault, and never two answers; and two plans
/// that meet the clauses on the plan of a pipeline are equal.
pub fn plan_laws()
    ensures one { (pipeline : Pipeline) (left right : Result Plan Fault) →
        IsPlanOf pipeline left → IsPlanOf pipeline right → left ≡ right }
    ensures pinned { (pipeline : Pipeline) (left right : Plan) →
        IsPlanned pipeline left → IsPlanned pipeline right → left ≡ right }
{}
