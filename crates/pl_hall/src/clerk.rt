ghost use Rattle.std.specs.Prelude.{◌≡◌, ◌≤◌, true, false};
ghost use Rattle.pl_due.specs.Fit.{last_moment as last_of_all};
ghost use Rattle.pl_hall.specs.Seats.{IsFree, parts_of};
ghost use Rattle.pl_requests.specs.WellFormed.{is_request};
ghost use Rattle.pl_service.specs.Desk.{Act};
ghost use Rattle.pl_wire.specs.declared.message.Message.TheVariants as asks;

use crate::gate::Gate;
use crate::turns::{answer_in_turn, look_ahead};
use pl_base::{Digest, Memory, Moment};
use pl_keeper::{Keeper, KeeperFault};
use pl_service::{Call, Request, Service};
use pl_sessions::{Answer, Desk};
use pl_turn::{Seat, TurnLock};
use pl_wire::{Message, refused_reply};
use std::alloc::Global;
use std::sync::Wait;

/// A desk at a seat of a hall. It answers each request in a turn of its own. A request that queues
/// a run first takes another turn, to look what is to be compiled, passes the gate, and compiles
/// that without a turn; what was compiled is used where neither the files nor the root moved.
#[derive(Drop)]
pub struct Clerk<'a, R, G: Drop, K: Keeper + Drop> {
    rt: &'a R,
    lock: &'a TurnLock<Service<K>>,
    seat: Seat<Service<K>>,
    gate: G,
    ghost own: { seat.lock ≡ lock.now },
    ghost free: { seat.turn ≡ false },
}

impl<R: Wait, G: Gate + Drop, K: Keeper + Drop> Clerk<'_, R, G, K> {
    /// The seat, which has no turn.
    pub fn into_seat(self) -> Seat<Service<K>>
        ensures seat { result ≡ self.entry.seat }
        ensures free { IsFree self.entry.lock.now result }
    {
        let Clerk {
            rt: _,
            lock: _,
            seat,
            gate: _,
        } = self;
        seat
    }

    // Answers a request of a caller at a moment, or where that is later at the last entry's.
    fn ask(&mut self, alloc: Global, moment: Moment, caller: Digest, request: Request) -> Answer
        requires moment { moment ≤ last_of_all }
        requires well_formed { is_request request ≡ true }
        ensures { Act (parts_of self.old.seat) moment (asks.Ask caller request) result
            (parts_of self.new.seat) }
    {
        let call = Call {
            moment,
            caller,
            request,
        };
        let lock = self.lock;
        match look_ahead(self.rt, alloc, lock, &self.gate, &mut self.seat, &call) {
            Ok(ahead) => match answer_in_turn(self.rt, alloc, lock, &mut self.seat, call, ahead) {
                Ok(reply) => Answer::Reply(reply),
                Err(KeeperFault::Failed) => Answer::KeeperFault,
                Err(KeeperFault::Memory) => Answer::Memory,
            },
            Err(Memory) => Answer::Memory,
        }
    }
}

impl<R: Wait, G: Gate + Drop, K: Keeper + Drop> Desk for Clerk<'_, R, G, K> {
    ghost acts = { λ old moment message answer new.
        Act (parts_of old.seat) moment message answer (parts_of new.seat) };

    fn act(&mut self, alloc: Global, moment: Moment, message: Message) -> Answer {
        match message {
            Message::Ask { caller, request } => self.ask(alloc, moment, caller, request),
            Message::Refused(fault) => match refused_reply(alloc, fault) {
                Ok(reply) => Answer::Reply(reply),
                Err(Memory) => Answer::Memory,
            },
        }
    }
}

/// A clerk at a seat.
pub(crate) fn at_seat<'a, R: Wait, G: Gate + Drop, K: Keeper + Drop>(
    rt: &'a R,
    lock: &'a TurnLock<Service<K>>,
    seat: Seat<Service<K>>,
    gate: G,
) -> Clerk<'a, R, G, K>
    requires { IsFree lock.now seat }
    ensures seat { result.seat ≡ seat }
    ensures lock { result.lock.now ≡ lock.entry.now }
{
    Clerk {
        rt,
        lock,
        seat,
        gate,
    }
}
