//! What one caller asks a desk.

ghost use Rattle.std.specs.Prelude.{◌≡◌, [], ◌∷◌, true, IfOk};
ghost use Rattle.pl_rehearsing.specs.Asking.{Asks, asked};
ghost use Rattle.pl_requests.specs.WellFormed.{is_request};

use pl_base::{Digest, LAST_MOMENT, Memory, Moment};
use pl_requests::{Reply, Request};
use pl_sessions::{Answer, Desk};
use pl_wire::Message;
use std::alloc::Global;

/// With whose token is asked, and at which moment the next request comes.
#[derive(Drop)]
pub(crate) struct Asker {
    pub(crate) caller: Digest,
    pub(crate) moment: Moment,
}

impl Asker {
    /// Asks a desk. Memory where memory is wanting, where what the desk keeps fails, or behind the
    /// last moment that a clock tells.
    pub(crate) fn ask<D: Desk>(
        &mut self,
        alloc: Global,
        desk: &mut D,
        request: Request,
    ) -> Result<Reply, Memory>
        requires { is_request request ≡ true }
        ensures { IfOk result (λ reply.
            Asks D.acts desk.old self.old (asked request reply ∷ []) desk.new self.new) }
    {
        if self.moment > LAST_MOMENT {
            return Err(Memory);
        }
        let message = Message::Ask {
            caller: self.caller,
            request,
        };
        match desk.act(alloc, self.moment, message) {
            Answer::Reply(reply) => {
                self.moment += 1;
                Ok(reply)
            }
            Answer::KeeperFault | Answer::Memory => Err(Memory),
        }
    }
}
