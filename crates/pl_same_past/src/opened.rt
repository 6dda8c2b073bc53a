ghost use Rattle.std.specs.Prelude.{◌≡◌, ℕ, [], List, Some};
ghost use Rattle.pl_base.specs.declared.row.Row.{Row};
ghost use Rattle.pl_facts.specs.declared.entry.Entry.{Entry};
ghost use Rattle.pl_never_torn.specs.Below.pl_history.specs.History.{log_of, Opening};
ghost use Rattle.pl_keeper.specs.Keeping.{IsInOrder};
ghost use Rattle.pl_keeper.specs.declared.records.Meta.{Meta as Numbers};
ghost use Rattle.pl_keeper.specs.declared.records.Record.TheVariants as kept;
ghost use Rattle.pl_kept.specs.Kept.{numbers_kept};
ghost use Rattle.pl_opening_laws.specs.Below.pl_opening.specs.Opening.{IsOpenedOf};
ghost use Rattle.pl_same.specs.Same.{AreTheirs};
ghost use Rattle.pl_same_past.specs.Past.{AreSame, IsPast};

use pl_never_torn::{granting_laws, history_laws, leg_laws, sources_compile_again};
use pl_opening_laws::{compilations_can_run, opening_laws, seeing_laws};
use pl_same::same_laws;

/// What is opened of a service's rows is a service that keeps the same, and that stands as it does:
/// so it finds and answers the same, which `same_past_laws` say of any two such.
///
/// The rows are those of a past (`AreTheirs`), in order, and something was changed in it; of a
/// service in which nothing ever was there are no rows, and without rows it is a new one that is
/// opened.
pub fn same_opened_laws()
    ensures { (opening : Opening) (entries : List Entry) → IsPast opening entries →
        (rows : List Row) (change : ℕ) (numbers : Numbers) →
        AreTheirs change (log_of opening entries) rows →
        numbers_kept change (log_of opening entries) ≡ Some (kept.Meta numbers) →
        IsInOrder rows → (again : Opening) → IsOpenedOf opening.admin rows again →
        AreSame opening entries again [] }
{
    compilations_can_run();
    granting_laws();
    history_laws();
    leg_laws();
    opening_laws();
    same_laws();
    seeing_laws();
    sources_compile_again();
}
