ghost use Rattle.std.specs.Prelude.{◌≡◌, ◌≤◌, ℕ};
ghost use Rattle.pl_sessions.specs.Desk.{IsWellFormed};
ghost use Rattle.pl_sessions.specs.Halts.{asks_to_stop, is_done, is_shutdown};
ghost use Rattle.pl_sessions.specs.declared.answer.Answer.{Answer};
ghost use Rattle.pl_wire.specs.declared.message.Message.{Message};

use crate::answer::Answer;
use pl_base::Moment;
use pl_requests::Request;
use pl_wire::Message;
use std::alloc::Global;

/// One who answers messages, each behind those before it.
pub trait Desk {
    /// What a message at a moment, with this answer, makes of the desk.
    ghost acts: { Self → ℕ → Message → Answer → Self → Type 0 };

    /// Answers a message at a moment that a clock tells.
    fn act(&mut self, alloc: Global, moment: Moment, message: Message) -> Answer
        requires moment { moment ≤ 4102444799 }
        requires well_formed { IsWellFormed message }
        ensures { acts self.old moment message result self.new };
}

/// Whether a request asks the service to stop.
fn asks_to_stop(request: &Request) -> bool
    ensures { result ≡ asks_to_stop request.now }
{
    match request {
        Request::Shutdown => true,
        _ => false,
    }
}

/// Whether a message asks the service to stop.
pub(crate) fn is_shutdown(message: &Message) -> bool
    ensures { result ≡ is_shutdown message.now }
{
    match message {
        Message::Ask { caller: _, request } => asks_to_stop(request),
        Message::Refused(_) => false,
    }
}

/// Whether an answer says that it is done.
pub(crate) fn is_done(answer: &Answer) -> bool
    ensures { result ≡ is_done answer.now }
{
    match answer {
        Answer::Reply(reply) => reply.status == 200,
        Answer::KeeperFault => false,
        Answer::Memory => false,
    }
}
