ghost use Rattle.std.specs.Prelude.{◌≡◌, ℕ, List, Some, None};
ghost use Rattle.pl_base.specs.declared.digest.Digest.{Digest};
ghost use Rattle.pl_journal.specs.Log.{Log};
ghost use Rattle.pl_keeper.specs.declared.records.Meta.{Meta as Numbers};
ghost use Rattle.pl_keeper.specs.declared.records.Record.TheVariants as kept;
ghost use Rattle.pl_kept.specs.Kept.{numbers_kept};
ghost use Rattle.pl_reread.specs.Reread.{AreMade, AreReread, AreToldBy, LeaveNothing};
ghost use Rattle.pl_reread.specs.Reread.{SayNothingBad};
ghost use Rattle.pl_torn.specs.Torn.{torn};
ghost use Rattle.pl_torn.specs.declared.seen.Seen.{Seen as Read};

use pl_keeper::record_laws;

/// The rows of a state, read again, tell what is kept: at each place what is kept there, at the
/// first place the service's numbers; and each is one of these. None is torn where a row was changed
/// and where no record says something that is bad beside the others: so no row is torn by its place,
/// by what can't be read in it, or for want of the numbers. Nor is one torn for want of a plan, or of
/// the row of a stage or a job of it, where runs' rows compile to what the runs were compiled to:
/// what is left is said by `SaysNothing`, a line a table.
pub fn reread_laws()
    ensures told { (change : ℕ) (log : Log) (all : List Read) → AreReread change log all →
        AreToldBy change log all }
    ensures torn { (admin : Digest) (change : ℕ) (log : Log) (numbers : Numbers)
        (all : List Read) → AreReread change log all →
        numbers_kept change log ≡ Some (kept.Meta numbers) → SayNothingBad admin all →
        torn admin all ≡ None }
    ensures said { (admin : Digest) (change : ℕ) (log : Log) (all : List Read) →
        AreReread change log all → AreMade log all → LeaveNothing admin log all →
        SayNothingBad admin all }
{
    record_laws();
}
