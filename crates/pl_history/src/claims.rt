ghost use Rattle.std.specs.Prelude.{List};
ghost use Rattle.pl_base.specs.declared.digest.Digest.{Digest};
ghost use Rattle.pl_facts.specs.declared.entry.Entry.{Entry};
ghost use Rattle.pl_history.specs.Claims.{IsOrderly};
ghost use Rattle.pl_history.specs.Guarded.{IsAnswered};
ghost use Rattle.pl_history.specs.History.{Opening, held_of, log_of, opened};
ghost use Rattle.pl_history.specs.Legal.{Legal};
ghost use Rattle.pl_step.specs.Below.pl_queueing.specs.Queueing.{Made};
ghost use Rattle.pl_requests.specs.declared.call.Call.{Call};
ghost use Rattle.pl_step.specs.Step.{IsStep};
ghost use Rattle.pl_step.specs.declared.stepped.Stepped.{Stepped};

use pl_granting_laws::{granting_laws, history_laws, settling_laws};

/// Laws of claims, behind every legal history whose opening is orderly. A service that is opened
/// for the first time is.
///
/// A claim by a caller who may claim, for whom there is an agent, is answered 200 exactly where
/// that agent may have the job on the facts with what was due: it holds the job, or the job may be
/// given to it, which is said without an order of rules. There the reply is the job's, and the
/// agent takes it unless it holds it already. Else the claim is refused by the first rule that it
/// breaks, and nothing is added but what was due. And who asks why is told the rule that a claim by
/// the named agent would break, and none exactly where that claim would be answered with the job.
/// Where the journal would be full both are refused by that.
pub fn claim_laws()
    ensures answered { (opening : Opening) (entries : List Entry) → IsOrderly opening →
        Legal opening entries → (call : Call) (made : Made) (stepped : Stepped) →
        IsStep (held_of opening entries) (log_of opening entries) call made stepped →
        IsAnswered opening entries call stepped }
    ensures orderly { (admin : Digest) → IsOrderly (opened admin) }
{
    granting_laws();
    history_laws();
    settling_laws();
}
