ghost use Rattle.std.specs.Prelude.{◌≡◌, ℕ, [], List, None, Some};
ghost use Rattle.pl_base.specs.declared.digest.Digest.{Digest};
ghost use Rattle.pl_facts.specs.declared.entry.Entry.{Entry};
ghost use Rattle.pl_history.specs.History.{Opening, log_of, opened};
ghost use Rattle.pl_history.specs.Legal.{Legal};
ghost use Rattle.pl_journal.specs.Log.{Log};
ghost use Rattle.pl_keeper.specs.declared.records.Meta.{Meta as Numbers};
ghost use Rattle.pl_keeper.specs.declared.records.Record.{Record};
ghost use Rattle.pl_keeper.specs.declared.records.Record.TheVariants as kept;
ghost use Rattle.pl_kept.specs.Kept.{kept_at, numbers_kept, Where};
ghost use Rattle.pl_reread.specs.Reread.{AreReread};
ghost use Rattle.pl_torn.specs.Torn.{torn};
ghost use Rattle.pl_torn.specs.declared.seen.Seen.{Seen as Read};
ghost use Rattle.pl_never_torn.specs.Late.{IsNotLate};
ghost use Rattle.pl_never_torn.specs.Own.{AreCompiled};
ghost use Rattle.pl_never_torn.specs.Rising.{NoneLater};
ghost use Rattle.pl_never_torn.specs.Standing.{HasStood};

use pl_granting_laws::{granting_laws, history_laws};
use pl_leg_limits::leg_laws;
use pl_reread::reread_laws;
use pl_sources::sources_compile_again;

/// The rows of a state are never torn.
///
/// Where no fact of the opening is later than its last moment, none of a legal history behind it is
/// later than the last moment then: moments rise from entry to entry, and the facts of one have the
/// moment of its call (`rising`). So no record that is kept is later than the numbers of the
/// service tell (`late`). What else a past has stood as at first (`HasStood`, as a new service has:
/// `new`) stays so, and so no row of a state is torn, where its rows are read again, with the
/// compiles of their sources (`whole`): none is bad by its place or by what can't be read in it,
/// and none by what it says beside the others.
pub fn never_torn_laws()
    ensures rising { (opening : Opening) (entries : List Entry) → NoneLater (log_of opening []) →
        Legal opening entries → NoneLater (log_of opening entries) }
    ensures late { (change : ℕ) (log : Log) (numbers : Numbers) → NoneLater log →
        numbers_kept change log ≡ Some (kept.Meta numbers) → (at : Where) (told : Record) →
        kept_at at log.facts ≡ Some told → IsNotLate numbers told }
    ensures new { (admin : Digest) → HasStood (opened admin) }
    ensures whole { (opening : Opening) (entries : List Entry) (change : ℕ) (numbers : Numbers)
        (all : List Read) → HasStood opening → Legal opening entries →
        AreReread change (log_of opening entries) all → AreCompiled all →
        numbers_kept change (log_of opening entries) ≡ Some (kept.Meta numbers) →
        torn (log_of opening entries).admin all ≡ None }
{
    granting_laws();
    history_laws();
    leg_laws();
    reread_laws();
    sources_compile_again();
}
