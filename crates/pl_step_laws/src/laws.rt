ghost use Rattle.std.specs.Prelude.{◌≡◌};
ghost use Rattle.pl_journal.specs.Log.{Log};
ghost use Rattle.pl_queueing.specs.Queueing.{Made};
ghost use Rattle.pl_requests.specs.declared.call.Call.{Call};
ghost use Rattle.pl_step.specs.Step.{IsStep};
ghost use Rattle.pl_step.specs.declared.held.Held.{Held};
ghost use Rattle.pl_step.specs.declared.stepped.Stepped.{Stepped};

use pl_settling::settling_laws;
use pl_step::granting_laws;

/// A step leaves no choice: what happened before, how much the service holds, the call, and what
/// was compiled for it tell what the call is answered and which facts it adds.
pub fn step_laws()
    ensures one { (held : Held) (log : Log) (call : Call) (made : Made) (left right : Stepped) →
        IsStep held log call made left → IsStep held log call made right → left ≡ right }
{
    granting_laws();
    settling_laws();
}
