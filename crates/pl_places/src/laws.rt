ghost use Rattle.std.specs.Prelude.{◌≡◌, List, Some, IfSome};
ghost use Rattle.pl_base.specs.declared.row.Row.{Row};
ghost use Rattle.pl_kept.specs.Below.pl_facts.specs.declared.fact.Fact.{Fact};
ghost use Rattle.pl_keeper.specs.Keeping.{place};
ghost use Rattle.pl_keeper.specs.Rows.{IsKept};
ghost use Rattle.pl_kept.specs.Kept.{kept_at, row_at, Where};
ghost use Rattle.pl_places.specs.Places.{place_at, Fits};

/// The laws of places. Two places whose fields fit are one where their tables and the bytes of
/// their keys are. The row that is kept at a place stands there in bytes, and where its record fits,
/// so do the place's fields.
pub fn place_laws()
    ensures one { (one other : Where) → Fits one → Fits other → place_at one ≡ place_at other →
        one ≡ other }
    ensures stands { (facts : List Fact) (at : Where) (row : Row) → row_at at facts ≡ Some row →
        place row ≡ place_at at }
    ensures fits { (facts : List Fact) (at : Where) (row : Row) →
        IfSome (kept_at at facts) IsKept → row_at at facts ≡ Some row → Fits at }
{}
