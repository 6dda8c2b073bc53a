ghost use Rattle.std.specs.Prelude.{◌≡◌, ◌≤◌, true, IfErr, IfOk};
ghost use Rattle.pl_alone.specs.Desk.{Act, parts};
ghost use Rattle.pl_service.specs.Below.pl_due.specs.Fit.{last_moment as last_of_all};
ghost use Rattle.pl_service.specs.Below.pl_history.specs.Guarded.{IsGuarded};
ghost use Rattle.pl_service.specs.Below.pl_history.specs.Legal.{Legal};
ghost use Rattle.pl_keeper.specs.Keeping.{WhereTold};
ghost use Rattle.pl_requests.specs.WellFormed.{is_request};
ghost use Rattle.pl_service.specs.Begun.{IsBegun, IsUnopened};
ghost use Rattle.pl_service.specs.Past.{past_of};
ghost use Rattle.pl_service.specs.Rows.{AreSame};
ghost use Rattle.pl_wire.specs.declared.message.Message.TheVariants as asks;

use pl_base::{Digest, Memory, Moment};
use pl_keeper::{Keeper, KeeperFault};
use pl_requests::Request;
use pl_service::{Call, Entry, Service, Unopened};
use pl_sessions::{Answer, Desk};
use pl_wire::{Message, refused_reply};
use std::alloc::Global;

/// A desk for one link, without a lock: a service that nobody else asks. Its entries name the
/// seat 0.
#[derive(Drop)]
pub struct Alone<K: Keeper + Drop> {
    pub service: Service<K>,
}

impl<K: Keeper + Drop> Alone<K> {
    /// A desk of a service that goes on from what the keeper has kept, with the digest of its
    /// admin's token. Where it isn't opened, the keeper comes back, and its rows are as they were:
    /// Torn, with the first row at which they don't stand together; KeeperFault, where the keeper
    /// failed now; Memory where memory is wanting.
    pub fn open(alloc: Global, keeper: K, admin: Digest) -> Result<Alone<K>, Unopened<K>>
        ensures begun { IfOk result (λ desk.
            IsBegun admin (K.held desk.service.keeper) (past_of desk.service)) }
        ensures rows { IfOk result (λ desk.
            WhereTold (K.held keeper) (K.held desk.service.keeper) AreSame) }
        ensures quiet { IfOk result (λ desk.
            K.faults desk.service.keeper ≡ K.faults keeper) }
        ensures unopened { IfErr result (IsUnopened K.Keeper admin keeper) }
    {
        match Service::open(alloc, keeper, admin) {
            Ok(service) => Ok(Alone { service }),
            Err(unopened) => Err(unopened),
        }
    }

    /// The keeper, with the rows as the last act left them.
    pub fn into_keeper(self) -> K
        ensures { result ≡ self.service.keeper }
    {
        let Alone { service } = self;
        let Service { core: _, keeper } = service;
        keeper
    }

    /// The entries since the service was opened, in order: a legal history.
    pub fn entries(&self) -> &[Entry]
        ensures entries { result.now ≡ self.now.service.core.entries }
        ensures legal { Legal self.now.service.core.opening self.now.service.core.entries }
        ensures guarded { IsGuarded self.now.service.core.opening self.now.service.core.entries }
    {
        self.service.core.entries()
    }

    // Answers a request of a caller at a moment, or where that is later at the last entry's.
    fn ask(&mut self, alloc: Global, moment: Moment, caller: Digest, request: Request) -> Answer
        requires moment { moment ≤ last_of_all }
        requires well_formed { is_request request ≡ true }
        ensures { Act (parts K.Keeper self.old) moment (asks.Ask caller request) result
            (parts K.Keeper self.new) }
    {
        let call = Call {
            moment,
            caller,
            request,
        };
        match self.service.answer(alloc, 0, call, None) {
            Ok(reply) => Answer::Reply(reply),
            Err(KeeperFault::Failed) => Answer::KeeperFault,
            Err(KeeperFault::Memory) => Answer::Memory,
        }
    }
}

impl<K: Keeper + Drop> Desk for Alone<K> {
    ghost acts = { λ old moment message answer new.
        Act (parts K.Keeper old) moment message answer (parts K.Keeper new) };

    // Where the keeper failed or memory is wanting, nothing changes.
    fn act(&mut self, alloc: Global, moment: Moment, message: Message) -> Answer {
        match message {
            Message::Ask { caller, request } => self.ask(alloc, moment, caller, request),
            Message::Refused(fault) => match refused_reply(alloc, fault) {
                Ok(reply) => Answer::Reply(reply),
                Err(Memory) => Answer::Memory,
            },
        }
    }
}
