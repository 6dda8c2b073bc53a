ghost use Rattle.std.specs.Prelude.{◌≡◌, ◌≢◌, ◌↔◌, ℕ, IsTrue, List, Option};
ghost use Rattle.std.specs.List.{list_any};
ghost use Rattle.pl_base.specs.declared.row.Change.{Change};
ghost use Rattle.pl_base.specs.declared.row.Row.{Row};
ghost use Rattle.pl_keeper.specs.Keeping.{all_changed};
ghost use Rattle.pl_changes.specs.Differing.{differing, is_change_at, row_in, Apart, Ascend};
ghost use Rattle.pl_changes.specs.Differing.{AreOnePerPlace, OverlookNothing, TellAt};

/// The laws of changes, of old and new rows that overlook nothing of what differs between all rows
/// before and behind; these may be all rows.
///
/// The changes of what differs, made of the rows before, leave those behind. They are of exactly
/// the places at which the rows before and behind differ, one of each: so there are as many as such
/// places. What is told of one place stands there behind them. Rows that ascend stand apart, and
/// changes leave them ascending.
pub fn change_laws()
    ensures lead { (before behind old new : List Row) → Ascend before → Ascend behind →
        Apart old → Apart new → OverlookNothing before behind old new →
        all_changed (differing old new) before ≡ behind }
    ensures differ { (before behind old new : List Row) → Apart old → Apart new →
        OverlookNothing before behind old new → (at : ℕ × List ℕ) →
        IsTrue (list_any (is_change_at at) (differing old new)) ↔
        (row_in at before ≢ row_in at behind) }
    ensures once { (old new : List Row) → Apart old → Apart new →
        AreOnePerPlace (differing old new) }
    ensures there { (before old new : List Row) (at : ℕ × List ℕ) (behind : Option Row) →
        Apart old → Apart new → TellAt at before behind old new →
        row_in at (all_changed (differing old new) before) ≡ behind }
    ensures apart { (rows : List Row) → Ascend rows → Apart rows }
    ensures ascend { (changes : List Change) (rows : List Row) → Ascend rows →
        Ascend (all_changed changes rows) }
{}
