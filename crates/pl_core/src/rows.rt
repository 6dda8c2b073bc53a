ghost use Rattle.std.specs.Prelude.{[], List, Some};
ghost use Rattle.pl_base.specs.declared.digest.Digest.{Digest};
ghost use Rattle.pl_base.specs.declared.row.Change.{Change};
ghost use Rattle.pl_base.specs.declared.row.Row.{Row};
ghost use Rattle.pl_core.specs.Prepared.{installed, next_change};
ghost use Rattle.pl_core.specs.Rows.{AreKept};
ghost use Rattle.pl_core.specs.State.{State, held, log, new_state};
ghost use Rattle.pl_facts.specs.declared.entry.Entry.{Entry};
ghost use Rattle.pl_history.specs.Claims.{IsOrderly};
ghost use Rattle.pl_history.specs.Legal.{Follows, Legal};
ghost use Rattle.pl_keeper.specs.Keeping.{all_changed};
ghost use Rattle.pl_all_rows.specs.Below.pl_row_changes.specs.Changing.{AreOfEntry};

use pl_history::entry_laws;

/// The law of the kept rows of a state: what an entry changes makes of them those of the state with
/// the entry. A new service has none.
pub fn kept_laws()
    ensures new { (admin : Digest) → AreKept (new_state admin) [] }
    ensures kept { (state : State) (entry : Entry) (changes : List Change) (rows : List Row) →
        IsOrderly state.opening → Legal state.opening state.entries →
        Follows state.opening state.entries entry →
        AreOfEntry (held state).change (next_change state (Some entry)) (log state) entry.facts
        changes → AreKept state rows →
        AreKept (installed (Some entry) state) (all_changed changes rows) }
{
    entry_laws();
}
