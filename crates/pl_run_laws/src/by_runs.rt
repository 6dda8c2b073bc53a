ghost use Rattle.std.specs.Prelude.{ℕ, List, Option};
ghost use Rattle.pl_due.specs.Due.{IsDue};
ghost use Rattle.pl_facts.specs.declared.fact.Event.{Event};
ghost use Rattle.pl_facts.specs.declared.fact.Fact.{Fact};
ghost use Rattle.pl_run_laws.specs.ByRuns.{DueBy, FirstIn, Firsts, Found, LeastOfAll, by_locks};
ghost use Rattle.pl_run_laws.specs.ByRuns.{kinds};

/// The law that what is due is the least of what is due first in each run, by kind and then by run,
/// where there is any; and else what the exclusive locks tell.
pub fn by_runs_laws()
    ensures due { (facts : List Fact) (moment : ℕ) (found : ℕ → Found) (first : Option Firsts)
        (due : Option Event) → ((run : ℕ) → FirstIn facts 0 (kinds facts moment) run (found run)) →
        LeastOfAll found first → DueBy (by_locks facts moment) first due →
        IsDue facts moment due }
{}
