ghost use Rattle.std.specs.Prelude.{◌≡◌, ℕ, List};
ghost use Rattle.pl_facts.specs.declared.fact.Fact.{Fact};
ghost use Rattle.pl_journal.specs.Log.{Log};
ghost use Rattle.pl_step_laws.specs.Below.pl_step.specs.Below.pl_queueing.specs.Queueing.{Made};
ghost use Rattle.pl_requests.specs.declared.call.Call.{Call};
ghost use Rattle.pl_same_lookups.specs.Alike.{LookAlike};
ghost use Rattle.pl_same_step.specs.Same.{HasRoom, LogsAlike, StayAlike};
ghost use Rattle.pl_step_laws.specs.Below.pl_step.specs.Below.pl_jobs.specs.Below.pl_settling.specs.Settles.{Settles};
ghost use Rattle.pl_step_laws.specs.Below.pl_step.specs.Step.{IsStep};
ghost use Rattle.pl_step_laws.specs.Below.pl_step.specs.declared.held.Held.{Held};
ghost use Rattle.pl_step_laws.specs.Below.pl_step.specs.declared.stepped.Stepped.{Stepped};

use pl_step_laws::step_laws;

/// Where the same is found, a call is answered the same.
///
/// Where two journals find the same at each place, what is due at a moment on the facts of one is
/// due on those of the other (`settles`). Where they find the same of tokens and holders too, now
/// and behind what is due, a call has the same reply in both, and adds the same facts, unless one
/// of them has no room for it (`steps`): however many entries each service holds, and however long
/// their texts are.
pub fn same_step_laws()
    ensures settles { (moment : ℕ) (facts other due : List Fact) → LookAlike facts other →
        Settles moment facts due → Settles moment other due }
    ensures steps { (held its : Held) (log other : Log) (call : Call) →
        StayAlike call.moment log other → (made : Made) (stepped also : Stepped) →
        HasRoom stepped → HasRoom also →
        IsStep held log call made stepped → IsStep its other call made also → stepped ≡ also }
{
    step_laws();
}
