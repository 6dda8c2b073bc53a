ghost use Rattle.std.specs.Prelude.{◌≡◌, ◌<◌, IfErr, IfOk, IsOk};
ghost use mathlib.Core.List.{IsPrefix};
ghost use Rattle.pl_hall.specs.Opening.{IsBegunAt, IsClosed};
ghost use Rattle.pl_hall.specs.Seats.{IsFree, parts_of, split_parts};
ghost use Rattle.pl_service.specs.Begun.{IsUnopened};
ghost use Rattle.pl_turn.specs.History.{longer};

use crate::clerk::at_seat;
use crate::gate::Gate;
use pl_base::{Digest, Memory};
use pl_keeper::Keeper;
use pl_service::{OpenFault, Service, Unopened};
use pl_turn::{Seat, TurnLock};
use std::alloc::Global;
use std::sync::Wait;

/// A service over which clerks take turns, each at a seat of its own.
#[derive(Drop)]
pub struct Hall<K: Keeper + Drop> {
    pub(crate) lock: TurnLock<Service<K>>,
}

impl<K: Keeper + Drop> Hall<K> {
    /// A hall of a service that goes on from what the keeper has kept, with the digest of its
    /// admin's token, and its first seat, which has seen nothing yet. Where it isn't opened, the
    /// keeper comes back, and its rows are as they were: Torn, with the first row at which they
    /// don't stand together; KeeperFault, where the keeper failed now; Memory where memory is
    /// wanting.
    pub fn open(
        alloc: Global,
        keeper: K,
        admin: Digest,
    ) -> Result<(Hall<K>, Seat<Service<K>>), Unopened<K>>
        ensures seat { IfOk result (λ r.
            IsBegunAt K.Keeper admin keeper r.0.lock (parts_of r.1)) }
        ensures free { IfOk result (λ r. IsFree r.0.lock r.1) }
        ensures unopened { IfErr result (IsUnopened K.Keeper admin keeper) }
    {
        let service = match Service::open(alloc, keeper, admin) {
            Ok(service) => service,
            Err(unopened) => return Err(unopened),
        };
        match TurnLock::new(alloc, service) {
            Ok((lock, seat)) => Ok((Hall { lock }, seat)),
            Err(Service { core: _, keeper }) => Err(Unopened {
                fault: OpenFault::Memory,
                keeper,
            }),
        }
    }

    /// A new seat, which has seen as much as the old one and has no entries of its own. Its number
    /// is above the old seat's and no other seat's. It takes no memory, and so never answers
    /// Memory.
    pub fn split<R: Wait>(
        &self,
        rt: &R,
        seat: &mut Seat<Service<K>>,
    ) -> Result<Seat<Service<K>>, Memory>
        requires { IsFree self.now.lock seat.old }
        ensures some { IsOk result }
        ensures free { IfOk result (λ s. IsFree self.now.lock s) }
        ensures new { IfOk result (λ s. parts_of s ≡ split_parts (parts_of seat.old) s.number) }
        ensures number { IfOk result (λ s. seat.old.number < s.number) }
        ensures same { seat.new ≡ seat.old }
    {
        self.lock.split_seat(rt, seat)
    }

    /// Joins a seat into another. What this one has seen becomes the longer of what the two have
    /// seen, which begins with the other. Its number and its own entries stay.
    pub fn join(&self, seat: &mut Seat<Service<K>>, other: Seat<Service<K>>)
        requires own { IsFree self.now.lock seat.old }
        requires free { IsFree self.now.lock other }
        ensures free { IsFree self.now.lock seat.new }
        ensures begins { IsPrefix seat.old.seen seat.new.seen × IsPrefix other.seen seat.new.seen }
        ensures seat { seat.new ≡ record seat.old { seen = longer seat.old.seen other.seen } }
    {
        self.lock.join_seat(seat, other);
    }

    /// Ends the hall, with the last seat: takes a last turn, and hands the keeper back. Where it
    /// tells its rows, they are those of a legal history that begins with what the seat has seen.
    pub fn close<R: Wait>(self, rt: &R, mut seat: Seat<Service<K>>) -> K
        requires { IsFree self.lock seat }
        ensures { IsClosed K.Keeper (parts_of seat) result }
    {
        let service = self.lock.take(rt, &mut seat);
        // They are a legal history.
        let _entries = service.core.entries();
        let Service { core: _, keeper } = service;
        keeper
    }

    /// A clerk at a seat.
    pub fn clerk<'a, R: Wait, G: Gate + Drop>(
        &'a self,
        rt: &'a R,
        seat: Seat<Service<K>>,
        gate: G,
    ) -> crate::clerk::Clerk<'a, R, G, K>
        requires { IsFree self.now.lock seat }
        ensures seat { result.seat ≡ seat }
        ensures lock { result.lock.now ≡ self.entry.now.lock }
    {
        at_seat(rt, &self.lock, seat, gate)
    }
}
