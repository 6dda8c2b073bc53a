//! What a user believes of stages that are ready.

ghost use Rattle.std.specs.Prelude.{◌≡◌, ◌≤◌, ℕ, List, All, is_none};
ghost use Rattle.pl_journal.specs.Below.pl_facts.specs.declared.fact.Fact.{Fact};
ghost use Rattle.pl_log.specs.Latest.{latest};
ghost use Rattle.pl_plan.specs.declared.plan.PlanJob.{PlanJob};
ghost use Rattle.pl_plan.specs.declared.plan.PlanStage.{PlanStage};
ghost use Rattle.pl_views.specs.Ready as spec;

/// Laws: a stage, or a job, is ready exactly where it awaits none; since when a stage is ready is
/// the moment of the latest fact among its run's queueing and the ends of those for which it waits,
/// where moments never fall from fact to fact; and it is no later than all facts are.
pub fn readiness_laws()
    ensures stage { (planned : PlanStage) (run : ℕ) (facts : List Fact) →
        spec.is_ready planned run facts ≡ is_none (spec.awaited_stage planned run facts) }
    ensures job { (planned : PlanJob) (run stage : ℕ) (facts : List Fact) →
        spec.job_is_ready planned run stage facts ≡
        is_none (spec.awaited_job planned run stage facts) }
    ensures latest { (planned : PlanStage) (run : ℕ) (facts : List Fact) → spec.NeverFall facts →
        spec.ready_moment planned run facts ≡
        spec.later 0 (latest (spec.makes_ready planned run) facts) }
    ensures within { (planned : PlanStage) (run moment : ℕ) (facts : List Fact) →
        All (λ fact. fact.moment ≤ moment) facts → spec.ready_moment planned run facts ≤ moment }
{}
