ghost use Rattle.std.specs.Prelude.{ℕ, List, All, Option};
ghost use Rattle.pl_checks.specs.declared.check.Check.{Check};
ghost use Rattle.pl_checks.specs.declared.view.CheckView.{CheckView};
ghost use Rattle.pl_wakes.specs.Steady.{IsBefore, SaysSame, StillSay, sooner};

/// Laws of checks that say the same at two moments: where each does, the same rule fails first at
/// both, and all pass at both or at neither (`ahead`, `back`); and what comes before the sooner of
/// two moments comes before each (`first`, `second`).
pub fn steady_laws()
    ensures ahead { (checks : List Check) (view : CheckView) (from later : ℕ) →
        All (λ check. SaysSame check view from later) checks → StillSay checks view from later }
    ensures back { (checks : List Check) (view : CheckView) (from later : ℕ) →
        All (λ check. SaysSame check view from later) checks → StillSay checks view later from }
    ensures first { (moment : ℕ) (one other : Option ℕ) → IsBefore moment (sooner one other) →
        IsBefore moment one }
    ensures second { (moment : ℕ) (one other : Option ℕ) → IsBefore moment (sooner one other) →
        IsBefore moment other }
{}
