ghost use Rattle.std.specs.Prelude.{[], List};
ghost use Rattle.pl_facts.specs.declared.entry.Entry.{Entry};
ghost use Rattle.pl_history.specs.Claims.{IsOrderly};
ghost use Rattle.pl_history.specs.History.{Opening, log_of};
ghost use Rattle.pl_history.specs.Legal.{Follows, Legal};
ghost use Rattle.pl_history.specs.Numbers.{AreWithin};
ghost use Rattle.pl_step.specs.Below.pl_touched.specs.Touched.{AreNewTo};

use pl_granting_laws::history_laws;

/// What an entry leaves to whoever keeps rows. Where the numbers of the opening have at most 18
/// digits, so have those behind each entry; and where the opening is orderly, each entry queues its
/// run for the first time.
pub fn entry_laws()
    ensures numbers { (opening : Opening) (entries : List Entry) → AreWithin opening [] →
        Legal opening entries → AreWithin opening entries }
    ensures fresh { (opening : Opening) (entries : List Entry) (entry : Entry) →
        IsOrderly opening → Legal opening entries → Follows opening entries entry →
        AreNewTo (log_of opening entries).facts entry.facts }
{
    history_laws();
}
