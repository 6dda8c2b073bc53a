ghost use Rattle.std.specs.Prelude.{◌≡◌, ◌≤◌, ◌++◌, ℕ, [], List};
ghost use Rattle.pl_base.specs.declared.digest.Digest.{Digest};
ghost use Rattle.pl_facts.specs.declared.entry.Entry.{Entry};
ghost use Rattle.pl_facts.specs.declared.fact.Fact.{Fact};
ghost use Rattle.pl_never_torn.specs.Below.pl_history.specs.History.{log_of, opened, Opening};
ghost use Rattle.pl_never_torn.specs.Below.pl_history.specs.Made.{IsMadeFor};
ghost use Rattle.pl_journal.specs.Log.{last_moment};
ghost use Rattle.pl_kept.specs.Kept.{kept_at, Where};
ghost use Rattle.pl_never_torn.specs.Below.pl_queueing.specs.Queueing.{Made as MadeOf};
ghost use Rattle.pl_requests.specs.declared.call.Call.{Call};
ghost use Rattle.pl_same_past.specs.Past.{AreSame, IsPast};
ghost use Rattle.pl_same_step.specs.Same.{HasRoom, LogsAlike};
ghost use Rattle.pl_never_torn.specs.Below.pl_step.specs.Step.{IsStep};
ghost use Rattle.pl_never_torn.specs.Below.pl_step.specs.declared.held.Held.{Held as Holdings};
ghost use Rattle.pl_never_torn.specs.Below.pl_step.specs.declared.stepped.Stepped.{Stepped as Given};

use pl_never_torn::{granting_laws, history_laws, never_torn_laws, sources_compile_again};
use pl_same_step::same_step_laws;

/// Services that keep the same answer the same.
///
/// A new service has a past (`new`). Two services of one admin that keep the same find the same in
/// their journals, each file and setting, each run, stage, job and decision, whose a token is and
/// which job an agent holds (`found`); what is to be compiled for a call is the same, and so is what
/// that compiles to (`made`). So at a moment that isn't before the last one a call has the same
/// reply in both, and adds the same facts, unless one of them has no room for it (`answers`). And
/// behind the same facts they keep the same at each place again (`behind`).
pub fn same_past_laws()
    ensures new { (admin : Digest) → IsPast (opened admin) [] }
    ensures found { (opening : Opening) (entries : List Entry) (other : Opening)
        (others : List Entry) → AreSame opening entries other others →
        LogsAlike (log_of opening entries) (log_of other others) }
    ensures made { (opening : Opening) (entries : List Entry) (other : Opening)
        (others : List Entry) → AreSame opening entries other others → (call : Call)
        (made : MadeOf) → IsMadeFor (log_of opening entries) call made →
        IsMadeFor (log_of other others) call made }
    ensures answers { (opening : Opening) (entries : List Entry) (other : Opening)
        (others : List Entry) → AreSame opening entries other others → (held its : Holdings)
        (call : Call) → last_moment (log_of opening entries) ≤ call.moment → (made : MadeOf)
        (stepped also : Given) → HasRoom stepped → HasRoom also →
        IsStep held (log_of opening entries) call made stepped →
        IsStep its (log_of other others) call made also → stepped ≡ also }
    ensures behind { (opening : Opening) (entries : List Entry) (other : Opening)
        (others : List Entry) → AreSame opening entries other others → (added : List Fact)
        (here : Where) → kept_at here ((log_of opening entries).facts ++ added)
        ≡ kept_at here ((log_of other others).facts ++ added) }
{
    granting_laws();
    history_laws();
    never_torn_laws();
    same_step_laws();
    sources_compile_again();
}
