ghost use Rattle.std.specs.Prelude.{ℕ, List};
ghost use Rattle.pl_base.specs.declared.row.Row.{Row};
ghost use Rattle.pl_journal.specs.Log.{Log};
ghost use Rattle.pl_same.specs.Same.{AreTheirs, KeepTheSame};

use pl_keeper::record_laws;

/// Two states that have the same rows keep the same: at each place the same record, and the same
/// numbers of the service.
pub fn same_laws()
    ensures { (rows : List Row) (change : ℕ) (log : Log) (other_change : ℕ) (other : Log) →
        AreTheirs change log rows → AreTheirs other_change other rows →
        KeepTheSame change log other_change other }
{
    record_laws();
}
