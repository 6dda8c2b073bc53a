ghost use Rattle.std.specs.Prelude.{◌++◌, List};
ghost use Rattle.pl_facts.specs.declared.fact.Fact.{Fact};
ghost use Rattle.pl_same_lookups.specs.Alike.{LookAlike};

/// Where the same is found in two pasts, it is behind the same facts.
pub fn same_lookups_laws()
    ensures { (facts other added : List Fact) → LookAlike facts other →
        LookAlike (facts ++ added) (other ++ added) }
{}
