ghost use Rattle.std.specs.Prelude.{◌++◌, ◌∷◌, [], ℕ, List};
ghost use Rattle.pl_facts.specs.declared.fact.Fact.{Fact};
ghost use Rattle.pl_granting_laws.specs.Histories.{AreOrderly, MayCome};
ghost use Rattle.pl_granting.specs.Below.pl_settling.specs.Settles.{Adds};

/// Laws of histories that begin without a fact and to which what may come is added.
///
/// In them each stage that was started is of a queued run, and where such a stage has ended, every
/// job of it has. Settling keeps this, and so does a request: it starts and ends no stage, and a
/// run is queued under a number that none has. So what `pl_granting::granting_laws` asks of the
/// facts holds of each such history: a claim breaks no rule exactly where the job may be given.
pub fn history_laws()
    ensures first { AreOrderly [] }
    ensures settling { (moment : ℕ) (facts added : List Fact) → Adds moment facts added →
        AreOrderly facts → AreOrderly (facts ++ added) }
    ensures next { (facts : List Fact) (one : Fact) → MayCome facts one.event →
        AreOrderly facts → AreOrderly (facts ++ one ∷ []) }
{}
