//! The turns that a clerk takes.

ghost use Rattle.std.specs.Prelude.{◌≡◌, ◌<◌, ◌≤◌, true, IfOk, IfSome, IsErrOf, OnErr};
ghost use Rattle.pl_due.specs.Fit.{last_moment as last_of_all};
ghost use Rattle.pl_hall.specs.Seats.{IsAheadHere, IsFree, Passes, WantsHere};
ghost use Rattle.pl_hall.specs.Seats.{parts_of, queues};
ghost use Rattle.pl_requests.specs.WellFormed.{is_request};
ghost use Rattle.pl_service.specs.Desk.{Keeps, Serves};

use crate::gate::Gate;
use pl_base::Memory;
use pl_keeper::{Keeper, KeeperFault};
use pl_service::{Ahead, Call, Reply, Request, Service, Snapshot};
use pl_turn::{Seat, TurnLock};
use std::alloc::Global;
use std::sync::Wait;

/// Answers a call in a turn, with what was compiled before it.
pub(crate) fn answer_in_turn<R: Wait, K: Keeper + Drop>(
    rt: &R,
    alloc: Global,
    lock: &TurnLock<Service<K>>,
    seat: &mut Seat<Service<K>>,
    call: Call,
    ahead: Option<Ahead>,
) -> Result<Reply, KeeperFault>
    requires free { IsFree lock.now seat.old }
    requires moment { call.moment ≤ last_of_all }
    requires well_formed { is_request call.request ≡ true }
    requires ahead { IfSome ahead (IsAheadHere (parts_of seat.old) call) }
    ensures free { IsFree lock.now seat.new }
    ensures keeps { Keeps (parts_of seat.old) (parts_of seat.new) }
    ensures serves { IfOk result (λ reply.
        Serves (parts_of seat.old) call reply (parts_of seat.new)) }
    ensures same { OnErr result ((parts_of seat.new).mine ≡ (parts_of seat.old).mine) }
    ensures failed { IsErrOf result KeeperFault.Failed →
        (parts_of seat.old).faults < (parts_of seat.new).faults }
{
    let mut service = lock.take(rt, seat);
    let reply = service.answer(alloc, seat.number(), call, ahead);
    lock.give_back(seat, service);
    reply
}

// What a call wants to be compiled, in a turn that adds nothing.
fn wanted<R: Wait, K: Keeper + Drop>(
    rt: &R,
    alloc: Global,
    lock: &TurnLock<Service<K>>,
    seat: &mut Seat<Service<K>>,
    call: &Call,
) -> Result<Option<Snapshot>, Memory>
    requires free { IsFree lock.now seat.old }
    ensures free { IsFree lock.now seat.new }
    ensures keeps { Keeps (parts_of seat.old) (parts_of seat.new) }
    ensures same { (parts_of seat.new).mine ≡ (parts_of seat.old).mine }
    ensures wants { IfOk result (λ wanted.
        IfSome wanted (WantsHere (parts_of seat.new) call.now)) }
{
    let mut service = lock.take(rt, seat);
    let wanted = service.wanted(alloc, call);
    lock.give_back(seat, service);
    wanted
}

// What a call wants to be compiled, in a turn, and what it is compiled to, without one.
fn compiled_ahead<R: Wait, G: Gate, K: Keeper + Drop>(
    rt: &R,
    alloc: Global,
    lock: &TurnLock<Service<K>>,
    gate: &G,
    seat: &mut Seat<Service<K>>,
    call: &Call,
) -> Result<Option<Ahead>, Memory>
    requires free { IsFree lock.now seat.old }
    ensures free { IsFree lock.now seat.new }
    ensures keeps { Keeps (parts_of seat.old) (parts_of seat.new) }
    ensures same { (parts_of seat.new).mine ≡ (parts_of seat.old).mine }
    ensures ahead { IfOk result (λ ahead.
        IfSome ahead (IsAheadHere (parts_of seat.new) call.now)) }
{
    match wanted(rt, alloc, lock, seat, call) {
        Ok(Some(snapshot)) => {
            gate.before_compile();
            match Ahead::of(alloc, snapshot) {
                Ok(ahead) => Ok(Some(ahead)),
                Err(Memory) => Err(Memory),
            }
        }
        Ok(None) => Ok(None),
        Err(Memory) => Err(Memory),
    }
}

// Whether a request queues a run.
fn queues(request: &Request) -> bool
    ensures { result ≡ queues request.now }
{
    match request {
        Request::QueueText(_) => true,
        Request::Queue(_) => true,
        _ => false,
    }
}

/// The same for a call that queues a run; for any other there is nothing to compile, and no turn is
/// taken.
pub(crate) fn look_ahead<R: Wait, G: Gate, K: Keeper + Drop>(
    rt: &R,
    alloc: Global,
    lock: &TurnLock<Service<K>>,
    gate: &G,
    seat: &mut Seat<Service<K>>,
    call: &Call,
) -> Result<Option<Ahead>, Memory>
    requires free { IsFree lock.now seat.old }
    ensures free { IsFree lock.now seat.new }
    ensures passes { Passes (parts_of seat.old) (parts_of seat.new) }
    ensures ahead { IfOk result (λ ahead.
        IfSome ahead (IsAheadHere (parts_of seat.new) call.now)) }
    ensures err { OnErr result (Keeps (parts_of seat.old) (parts_of seat.new)) }
{
    if queues(&call.request) {
        compiled_ahead(rt, alloc, lock, gate, seat, call)
    } else {
        Ok(None)
    }
}
