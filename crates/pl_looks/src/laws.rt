ghost use Rattle.std.specs.Prelude.{◌≡◌, ◌≤◌, ℕ, List, Contains, Option, None, Some, false, true};
ghost use Rattle.std.specs.Prelude.{slice_get};
ghost use Rattle.pl_due.specs.Below.pl_journal.specs.Runs.{holding, taker_told};
ghost use Rattle.pl_due.specs.Below.pl_journal.specs.Settings.{by};
ghost use Rattle.pl_due.specs.Below.pl_open_runs.specs.Open.{is_open};
ghost use Rattle.pl_due.specs.Contention.{IsContention, locks};
ghost use Rattle.pl_due.specs.Due.{IsDue};
ghost use Rattle.pl_due.specs.Nodes.{IsStageOf, awaits_agent, is_running};
ghost use Rattle.pl_facts.specs.Below.pl_plan.specs.declared.plan.PlanJob.{PlanJob};
ghost use Rattle.pl_facts.specs.Below.pl_plan.specs.declared.plan.PlanStage.{PlanStage};
ghost use Rattle.pl_facts.specs.declared.fact.Event.{Event};
ghost use Rattle.pl_facts.specs.declared.fact.Fact.{Fact};
ghost use Rattle.pl_facts.specs.declared.fact.QueuedRun.{QueuedRun};
ghost use Rattle.pl_locks.specs.declared.contender.Contender.{Contender};
ghost use Rattle.pl_looks.specs.declared.types.Look.{Look};
ghost use Rattle.pl_looks.specs.Jobs.{ready_jobs, taken_jobs};
ghost use Rattle.pl_looks.specs.Laws.{AreGathered, AreLooks, SameUsesOf, nothing};
ghost use Rattle.pl_looks.specs.Looks.{IsLook, found_of};
ghost use Rattle.pl_run_laws.specs.ByRuns.{DueBy, Firsts, LeastOfAll, by_locks};
ghost use Rattle.pl_run_laws.specs.Runs.{IsSameRun};
ghost use Rattle.pl_wakes.specs.Steady.{IsBefore};

/// Laws of looks.
///
/// A look stays where what has happened to its run and the resources that its stages use are the
/// same (`untouched`), and at each later moment before the one that it tells (`later`). Nothing is
/// found in a run that isn't open (`closed`). What is due of all runs is the least of what is due
/// first in each, by kind and then by run, and where none has anything what the exclusive locks
/// tell (`due`); these are among all runs' eligible stages and all that run (`contention`). Each
/// job of a stage that runs is told that waits for an agent alone (`ready`), or that an agent holds
/// (`taken`).
pub fn look_laws()
    ensures untouched { (run : ℕ) (old new : List Fact) → IsSameRun run old new →
        SameUsesOf run old new → (moment : ℕ) (look : Look) → IsLook old moment run look →
        IsLook new moment run look }
    ensures later { (facts : List Fact) (moment run : ℕ) (look : Look) →
        IsLook facts moment run look → (later : ℕ) → moment ≤ later →
        IsBefore later look.wakes → IsLook facts later run look }
    ensures closed { (facts : List Fact) (run : ℕ) → is_open run facts ≡ false →
        (moment : ℕ) → IsLook facts moment run nothing }
    ensures due { (facts : List Fact) (moment : ℕ) (looks : ℕ → Look) (first : Option Firsts)
        (due : Option Event) → AreLooks facts moment looks →
        LeastOfAll (λ run. found_of (looks run).first) first →
        DueBy (by_locks facts moment) first due → IsDue facts moment due }
    ensures contention { (facts : List Fact) (moment : ℕ) (looks : ℕ → Look)
        (eligible holders : List Contender) → AreLooks facts moment looks →
        ((run : ℕ) → (looks run).first ≡ None) →
        AreGathered (λ run. (looks run).eligible) eligible →
        AreGathered (λ run. (looks run).holders) holders →
        IsContention facts moment (locks eligible holders) }
    ensures ready { (facts : List Fact) (told : QueuedRun) (one : PlanStage) (planned : PlanJob)
        (run stage job : ℕ) → IsStageOf facts run stage told one →
        is_running run stage facts ≡ true → slice_get one.jobs job ≡ Some planned →
        awaits_agent one run stage job facts ≡ true → Contains (ready_jobs run facts)
        (record { pool = planned.pool; stage = stage; job = job }) }
    ensures taken { (facts : List Fact) (told : QueuedRun) (one : PlanStage) (planned : PlanJob)
        (run stage job : ℕ) → IsStageOf facts run stage told one →
        is_running run stage facts ≡ true → slice_get one.jobs job ≡ Some planned →
        (agent : List ℕ) → by taker_told (holding run stage job facts) ≡ Some agent →
        Contains (taken_jobs run facts) (record { agent = agent; stage = stage; job = job }) }
{}
