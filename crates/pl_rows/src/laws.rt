ghost use Rattle.std.specs.Prelude.{◌≡◌, ◌++◌, [], ℕ, List};
ghost use Rattle.pl_base.specs.declared.row.Row.{Row};
ghost use Rattle.pl_touched.specs.Below.pl_facts.specs.declared.fact.Fact.{Fact};
ghost use Rattle.pl_touched.specs.Below.pl_journal.specs.Log.{Log};
ghost use Rattle.pl_keeper.specs.Keeping.{all_changed};
ghost use Rattle.pl_changes.specs.Differing.{differing, Apart, OverlookNothing};
ghost use Rattle.pl_touched.specs.Touched.{touched_by, AreNewTo, FitAt};
ghost use Rattle.pl_rows.specs.Entry.{with_added, AllFit, AreLookedAt};
ghost use Rattle.pl_rows.specs.State.{AreRows};

/// The laws of the rows of a state.
///
/// A state leaves no choice in what its rows are. What is looked at of an entry's rows, at the
/// places that its facts touch, overlooks nothing of what differs between the rows before and those
/// behind: so the changes of what differs there lead from the ones to the others, and what they
/// leave are the rows behind. Where nothing has happened there are no rows. Where all that was kept
/// can be read again, and all that is kept at touched places, all that is kept can.
pub fn rows_laws()
    ensures one { (change : ℕ) (log : Log) (one other : List Row) → AreRows change log one →
        AreRows change log other → one ≡ other }
    ensures entry { (change next : ℕ) (log : Log) (added : List Fact)
        (before behind old new : List Row) → AreRows change log before →
        AreRows next (with_added log added) behind → AllFit log.facts →
        AllFit (log.facts ++ added) → AreNewTo log.facts added →
        AreLookedAt change log added old → AreLookedAt next (with_added log added) added new →
        OverlookNothing before behind old new }
    ensures kept { (change next : ℕ) (log : Log) (added : List Fact) (before old new : List Row) →
        AreRows change log before → AllFit log.facts → AllFit (log.facts ++ added) →
        AreNewTo log.facts added → AreLookedAt change log added old →
        AreLookedAt next (with_added log added) added new →
        AreRows next (with_added log added) (all_changed (differing old new) before) }
    ensures apart { (change : ℕ) (log : Log) (added : List Fact) (rows : List Row) →
        AreLookedAt change log added rows → AllFit log.facts → Apart rows }
    ensures none { (log : Log) → log.facts ≡ [] → AreRows 0 log [] }
    ensures blank { AllFit [] }
    ensures fit { (facts added : List Fact) → AllFit facts → AreNewTo facts added →
        FitAt (touched_by added) (facts ++ added) → AllFit (facts ++ added) }
{}
