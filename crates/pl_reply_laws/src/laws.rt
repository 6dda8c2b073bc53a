ghost use Rattle.std.specs.Prelude.{◌≡◌, ℕ, false, List, Option, Some};
ghost use Rattle.pl_alone.specs.Desk.{Act, Parts, past};
ghost use Rattle.pl_alone.specs.Below.pl_history.specs.Made.{IsMadeFor, WantsFor};
ghost use Rattle.pl_journal.specs.Log.{Log};
ghost use Rattle.pl_queueing.specs.Queueing.{Made};
ghost use Rattle.pl_reply_laws.specs.Alike.{AreAsked, AreOne, AreReplied};
ghost use Rattle.pl_requests.specs.declared.call.Call.{Call};
ghost use Rattle.pl_sessions.specs.Acts.{Acts, Turn};
ghost use Rattle.pl_sessions.specs.Session.{Point, Session};
ghost use Rattle.pl_sessions.specs.declared.answer.Answer.{Answer};
ghost use Rattle.pl_sessions.specs.declared.served.Served.TheVariants.{Ended};
ghost use Rattle.pl_snapshots.specs.declared.snapshot.Snapshot.{Snapshot};
ghost use Rattle.pl_wire.specs.declared.message.Message.{Message};

use pl_sources::sources_compile_again;
use pl_step_laws::step_laws;
use pl_wire::one_reading;

/// Laws of what is answered: it leaves no choice, but that the keeper may fail and memory may be
/// wanting.
///
/// What has happened and a call tell what is to be compiled for the call (`wanted`), and what that
/// is compiled to, the plan or the refusal (`made`). So what a desk's service has been through and
/// a message at a moment tell the reply and what it has been through afterwards (`act`), whatever
/// keeper it has; and with the messages and the moments of the clock they tell all replies and what
/// it has been through behind them (`acts`). So does a session that reads its source to the end,
/// between messages: what it writes, and what the service has been through behind it, are told by
/// the bytes, in whatever pieces they come, the moments and what it had been through (`session`).
pub fn reply_laws()
    ensures wanted { (log : Log) (call : Call) (left right : Option Snapshot) →
        WantsFor log call left → WantsFor log call right → left ≡ right }
    ensures made { (log : Log) (call : Call) (left right : Made) →
        IsMadeFor log call left → IsMadeFor log call right → left ≡ right }
    ensures act { (old also : Parts) (moment : ℕ) (message : Message) (left right : Answer)
        (one other : Parts) → past also ≡ past old → Act old moment message left one →
        Act also moment message right other → AreOne left one right other }
    ensures acts { (old also : Parts) (left right : List Turn) (one other : Parts) →
        past also ≡ past old → Acts Act old left one → Acts Act also right other →
        AreAsked left right → AreReplied left → AreReplied right →
        (left ≡ right) × (past one ≡ past other) }
    ensures session { (old new other : Point Parts) (also : Parts) (bytes : List ℕ)
        (coming : ℕ → ℕ) → old.link.left ≡ Some bytes → old.coming ≡ Some coming →
        past also ≡ past old.desk → (left : Session Act false old new Ended) →
        (right : Session Act false (record old { desk = also }) other Ended) →
        AreReplied left.turns → AreReplied right.turns →
        (new.link.held ≡ other.link.held) × (past new.desk ≡ past other.desk) }
{
    one_reading();
    sources_compile_again();
    step_laws();
}
