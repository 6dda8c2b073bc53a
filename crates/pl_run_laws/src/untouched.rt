ghost use Rattle.std.specs.Prelude.{◌++◌, ℕ, List, All};
ghost use Rattle.pl_base.specs.declared.resource.ResourceKey.{ResourceKey};
ghost use Rattle.pl_facts.specs.declared.fact.Fact.{Fact};
ghost use Rattle.pl_run_laws.specs.Kinds.{IsSameBut, IsSameChecked};
ghost use Rattle.pl_run_laws.specs.Runs.{IsElsewhere, IsSameRun};
ghost use Rattle.pl_run_laws.specs.Uses.{AreSameUses, SetsNone};

/// Laws of what has to be looked at again behind facts.
///
/// Facts about other runs change nothing of what has happened to a run (`elsewhere`), and facts that
/// set none of some resources leave these as they are (`unset`); so where they are taken away again
/// nothing changes either (`turned`, `turned_uses`). What has happened to a run tells which of its
/// jobs are out of time or passed over, which of its stages are done, passed over or run (`due`);
/// and with the resources that a stage uses, whether a check fails, whether it may start, and what
/// it contends for (`checked`).
pub fn untouched_laws()
    ensures elsewhere { (run : ℕ) (facts more : List Fact) → All (IsElsewhere run) more →
        IsSameRun run facts (facts ++ more) }
    ensures unset { (uses : List ResourceKey) (facts more : List Fact) →
        All (SetsNone uses) more → AreSameUses uses facts (facts ++ more) }
    ensures turned { (run : ℕ) (old new : List Fact) → IsSameRun run old new →
        IsSameRun run new old }
    ensures turned_uses { (uses : List ResourceKey) (old new : List Fact) →
        AreSameUses uses old new → AreSameUses uses new old }
    ensures due { (run : ℕ) (old new : List Fact) → IsSameRun run old new →
        IsSameBut run old new }
    ensures checked { (run : ℕ) (old new : List Fact) → IsSameRun run old new →
        IsSameChecked run old new }
{}
