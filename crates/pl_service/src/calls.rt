//! How a service is opened, and what it answers.

ghost use Rattle.std.specs.Prelude.{◌≡◌, ◌≤◌, [], true, max, IfErr, IfOk, IfSome};
ghost use Rattle.std.specs.Prelude.{IsErrOf, OnErr, OnOk};
ghost use Rattle.pl_base.specs.Counts.{last_count, one_more};
ghost use Rattle.pl_opening.specs.Below.pl_due.specs.Fit.{last_moment as last_of_all};
ghost use Rattle.pl_opening.specs.Below.pl_history.specs.Made.{IsMadeFor, WantsFor};
ghost use Rattle.pl_journal.specs.Log.{last_moment};
ghost use Rattle.pl_keeper.specs.Keeping.{WhereTold};
ghost use Rattle.pl_requests.specs.WellFormed.{is_request, is_well_formed};
ghost use Rattle.pl_service.specs.Ahead.{IsAhead};
ghost use Rattle.pl_service.specs.Begun.{IsBegun, IsUnopened};
ghost use Rattle.pl_service.specs.Past.{Answers, IsLegal, lifted, log, past_of};
ghost use Rattle.pl_service.specs.Rows.{AreSame, StayKept};

use crate::ahead::{Ahead, made_of};
use crate::applying::keep;
use crate::opening::{Unopened, begun};
use crate::service::Service;
use pl_base::{Digest, Memory, Moment, Refusal, Shared};
use pl_keeper::{Keeper, KeeperFault};
use pl_opening::{Call, Core, Entry, Reply, Snapshot, kept_laws};
use pl_plan::Compiled;
use std::alloc::Global;

impl<K: Keeper + Drop> Service<K> {
    /// A service that goes on from what the keeper has kept, with the digest of its admin's token.
    /// Nothing has happened since. Where it isn't opened, the keeper comes back, and its rows are
    /// as they were: Torn, with the first row at which they don't stand together; KeeperFault,
    /// where the keeper failed now; Memory where memory is wanting.
    pub fn open(alloc: Global, mut keeper: K, admin: Digest) -> Result<Service<K>, Unopened<K>>
        ensures begun { IfOk result (λ service.
            IsBegun admin (K.held service.keeper) (past_of service)) }
        ensures rows { IfOk result (λ service.
            WhereTold (K.held keeper) (K.held service.keeper) AreSame) }
        ensures quiet { IfOk result (λ service. K.faults service.keeper ≡ K.faults keeper) }
        ensures unopened { IfErr result (IsUnopened K.Keeper admin keeper) }
    {
        match begun(alloc, &mut keeper, admin) {
            Ok(core) => Ok(Service { core, keeper }),
            Err(fault) => Err(Unopened { fault, keeper }),
        }
    }

    /// What a call wants to be compiled, or None where it wants nothing. It changes nothing. Memory
    /// where memory is wanting.
    pub fn wanted(&mut self, alloc: Global, call: &Call) -> Result<Option<Snapshot>, Memory>
        ensures wants { IfOk result (WantsFor (log (past_of self.old)) call.now) }
        ensures same { past_of self.new ≡ past_of self.old }
        ensures keeper { self.new.keeper ≡ self.old.keeper }
        ensures legal { IsLegal (past_of self.new) }
    {
        self.core.back();
        // They are a legal history.
        let _entries = self.core.entries();
        self.core.wanted(alloc, call)
    }

    /// Answers a call of a seat, at the call's moment or where that is later at the last entry's.
    /// What was compiled before is used where it is what the call wants now; else that is compiled
    /// now. Where the call is an entry, the keeper has applied its changes before: where the
    /// keeper's rows are told and were those of the service, they are those of the service. Where
    /// the keeper failed or memory is wanting, nothing changes, and the rows are as they were.
    pub fn answer(
        &mut self,
        alloc: Global,
        seat: u64,
        mut call: Call,
        ahead: Option<Ahead>,
    ) -> Result<Reply, KeeperFault>
        requires moment { call.moment ≤ last_of_all }
        requires well_formed { is_request call.request ≡ true }
        requires ahead { IfSome ahead (IsAhead (past_of self.old) call) }
        ensures answers { IfOk result (λ reply. Answers seat (past_of self.old)
            (lifted (past_of self.old) call) reply (past_of self.new)) }
        ensures same { OnErr result (past_of self.new ≡ past_of self.old) }
        ensures opening { self.new.core.opening ≡ self.old.core.opening }
        ensures legal { IsLegal (past_of self.new) }
        ensures rows { OnOk result (WhereTold (K.held self.old.keeper) (K.held self.new.keeper)
            (StayKept (past_of self.old) (past_of self.new))) }
        ensures rows_same { OnErr result
            (WhereTold (K.held self.old.keeper) (K.held self.new.keeper) AreSame) }
        ensures quiet { OnOk result
            (K.faults self.new.keeper ≡ K.faults self.old.keeper) }
        ensures failed { IsErrOf result KeeperFault.Failed →
            K.faults self.new.keeper ≡ one_more (K.faults self.old.keeper) }
        ensures memory { IsErrOf result KeeperFault.Memory →
            K.faults self.new.keeper ≡ K.faults self.old.keeper }
        ensures within { K.faults self.old.keeper ≤ last_count }
    {
        let _counted = self.keeper.faults();
        self.core.back();
        // They are a legal history, now and behind the call.
        let _before = self.core.entries();
        call.moment = later(call.moment, self.core.moment());
        let reply = self.reply(alloc, seat, &call, ahead);
        let _behind = self.core.entries();
        reply
    }

    // The step's reply to a call, which is an entry then where it adds facts; before that the
    // keeper applies what the entry changes.
    fn reply(
        &mut self,
        alloc: Global,
        seat: u64,
        call: &Call,
        ahead: Option<Ahead>,
    ) -> Result<Reply, KeeperFault>
        requires well_formed { is_well_formed call.now ≡ true }
        requires moment { last_moment (log (past_of self.old)) ≤ call.now.moment }
        requires back { self.old.core.pending ≡ [] }
        requires legal { IsLegal (past_of self.old) }
        requires ahead { IfSome ahead (IsAhead (past_of self.old) call.now) }
        ensures answers { IfOk result (λ reply.
            Answers seat (past_of self.old) call.now reply (past_of self.new)) }
        ensures same { OnErr result (past_of self.new ≡ past_of self.old) }
        ensures opening { self.new.core.opening ≡ self.old.core.opening }
        ensures rows { OnOk result (WhereTold (K.held self.old.keeper) (K.held self.new.keeper)
            (StayKept (past_of self.old) (past_of self.new))) }
        ensures rows_same { OnErr result
            (WhereTold (K.held self.old.keeper) (K.held self.new.keeper) AreSame) }
        ensures quiet { OnOk result
            (K.faults self.new.keeper ≡ K.faults self.old.keeper) }
        ensures failed { IsErrOf result KeeperFault.Failed →
            K.faults self.new.keeper ≡ one_more (K.faults self.old.keeper) }
        ensures memory { IsErrOf result KeeperFault.Memory →
            K.faults self.new.keeper ≡ K.faults self.old.keeper }
    {
        kept_laws();
        let made = self.made_for(alloc, call, ahead)?;
        let prepared = self.core.prepare(alloc, seat, call, made)?;
        match keep(alloc, &mut self.keeper, &prepared) {
            Ok(()) => Ok(self.core.install(prepared)),
            Err(fault) => {
                self.core.back();
                Err(fault)
            }
        }
    }

    // What a call wants, compiled, where it wants something.
    fn made_for(
        &self,
        alloc: Global,
        call: &Call,
        ahead: Option<Ahead>,
    ) -> Result<Option<Result<Shared<Compiled>, Refusal>>, Memory>
        requires back { self.now.core.pending ≡ [] }
        requires ahead { IfSome ahead (IsAhead (past_of self.now) call.now) }
        ensures { IfOk result (IsMadeFor (log (past_of self.now)) call.now) }
    {
        match self.core.wanted(alloc, call)? {
            Some(snapshot) => Ok(Some(made_of(alloc, &snapshot, ahead)?)),
            None => Ok(None),
        }
    }
}

// The later of two moments.
fn later(one: Moment, other: Moment) -> Moment
    ensures { result ≡ max one other }
{
    one.max(other)
}
