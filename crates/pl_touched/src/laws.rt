ghost use Rattle.std.specs.Prelude.{◌≡◌, ◌++◌, false, List};
ghost use Rattle.pl_kept.specs.Below.pl_facts.specs.declared.fact.Fact.{Fact};
ghost use Rattle.pl_kept.specs.Kept.{row_at, Where};
ghost use Rattle.pl_touched.specs.Touched.{is_among, touched_by, AreNewTo};

/// The law of facts and rows: at a place that facts don't touch stands behind them what stood there
/// before. Each run among them is queued for the first time.
pub fn touching_laws()
    ensures { (facts added : List Fact) (place : Where) → AreNewTo facts added →
        is_among place (touched_by added) ≡ false →
        row_at place (facts ++ added) ≡ row_at place facts }
{}
