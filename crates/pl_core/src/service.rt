ghost use Rattle.std.specs.Prelude.{◌≡◌, ◌≤◌, [], true, Some, IfOk, OnErr};
ghost use Rattle.pl_core.specs.Prepared.{IsEntryOf, IsPrepared, added_by, entries_with, installed};
ghost use Rattle.pl_core.specs.Prepared.{next_change, next_number};
ghost use Rattle.pl_core.specs.Rows.{AreKept};
ghost use Rattle.pl_core.specs.State.{held, log, new_state, opened_state};
ghost use Rattle.pl_history.specs.Below.pl_due.specs.Fit.{AreFit, last_moment as last_of_all};
ghost use Rattle.pl_facts.specs.Sizes.{counted};
ghost use Rattle.pl_history.specs.Claims.{IsOrderly};
ghost use Rattle.pl_history.specs.Guarded.{IsAnswered, IsGuarded};
ghost use Rattle.pl_history.specs.Legal.{Legal};
ghost use Rattle.pl_history.specs.Made.{IsMadeFor, WantsFor};
ghost use Rattle.pl_journal.specs.Log.{last_moment, version};
ghost use Rattle.pl_requests.specs.WellFormed.{is_well_formed};
ghost use Rattle.pl_all_rows.specs.Below.pl_row_changes.specs.Changing.{AreOfEntry};
ghost use Rattle.pl_history.specs.Below.pl_step.specs.Step.{IsStep, stepped_with};

use crate::opening::begun;
use crate::prepared::{Prepared, prepare};
use crate::wanting::wanted_for;
use pl_all_rows::rows_of;
use pl_base::{Digest, List, Memory, Moment, Refusal, Row, Shared};
use pl_facts::{Compiled, Entry, Fact, size_of};
use pl_history::{Held, access_laws, claim_laws, compilations_can_run};
use pl_journal::Numbers;
use pl_open_runs::IndexedJournal;
use pl_requests::{Call, Reply};
use pl_snapshots::{Gathered, Snapshot};
use std::alloc::Global;
use std::marker::Model;

/// A service: what has happened since it was opened.
///
/// Contracts see it as what it was opened with, the entries since then, in order, and the facts
/// that were prepared for one entry more and aren't installed. The entries are a legal history:
/// each is what the step makes of its call where it stands.
#[derive(Drop)]
pub struct Core {
    journal: IndexedJournal,
    /// The files as some first of the installed facts leave them.
    gathered: Gathered,
    entries: Vec<Entry>,
    /// The bytes of the entries' texts.
    size: u64,
    /// The moment of the last entry.
    moment: Moment,
    /// The version of the files.
    version: u64,
    /// The number of the next change of a kept row: when the service was opened, now, and behind
    /// what was prepared.
    first: u64,
    change: u64,
    behind: u64,
}

impl Model for Core {
    ghost use Rattle.std.specs.Prelude.{◌≡◌, ◌<◌, ◌⊎◌, [], vec_len, vec_capacity};
    ghost use Rattle.std.specs.Coded.{codes};
    ghost use Rattle.pl_core.specs.Kept.{AreNumbers, IsKept, change_behind, opening_of, pending_of};
    ghost use Rattle.pl_core.specs.State.{State};
    ghost use Rattle.pl_facts.specs.contracts.entry.Entry as an_entry;
    ghost use Rattle.pl_facts.specs.contracts.fact.Fact as a_fact;
    ghost use Rattle.pl_history.specs.History.{log_of};
    ghost use Rattle.pl_snapshots.specs.Gathering.{IsGathered};

    ghost Value = { State };

    ghost coded = { Prim.hlevel (codes, a_fact.the_row.coded, an_entry.the_row.coded) };

    ghost view = { λ core. record {
      opening = opening_of core.first core.journal;
      entries = core.entries.items;
      pending = pending_of core.journal;
    } };

    // So that installing takes no memory, there is room for one entry more while one is prepared.
    ghost invariant = { λ core.
        IsKept core.first core.journal core.entries.items ×
        AreNumbers (opening_of core.first core.journal) core.entries.items core.size core.moment
        core.version core.change ×
        ((pending_of core.journal ≡ []) ⊎ ((vec_len core.entries < vec_capacity core.entries) ×
        (core.behind ≡ change_behind (opening_of core.first core.journal) core.entries.items
        (pending_of core.journal)))) ×
        IsGathered (log_of (opening_of core.first core.journal) core.entries.items).facts
        core.gathered };
}

impl Core {
    /// A service in which nothing has happened, with the digest of its admin's token. Memory where
    /// memory is wanting.
    pub fn new(alloc: Global, admin: Digest) -> Result<Core, Memory>
        ensures { IfOk result (λ core. core ≡ new_state admin) }
    {
        let numbers = Numbers {
            moment: 0,
            run: 0,
            version: 0,
        };
        Core::opened(alloc, admin, numbers, 0, Vec::new(alloc))
    }

    /// A service that is opened with what has happened before, fact after fact, and goes on from
    /// these numbers and from this number of the next change of a kept row, with the digest of its
    /// admin's token. Memory where memory is wanting.
    pub fn opened(
        alloc: Global,
        admin: Digest,
        numbers: Numbers,
        change: u64,
        facts: Vec<Fact>,
    ) -> Result<Core, Memory>
        requires moment { numbers.moment ≤ last_of_all }
        requires fit { AreFit facts.items }
        ensures { IfOk result (λ core. core ≡ opened_state (record {
          admin = admin;
          moment = numbers.moment;
          run = numbers.run;
          version = numbers.version;
          change = change;
          facts = facts.items;
        })) }
    {
        let journal = begun(alloc, admin, numbers, change, facts)?;
        let moment = journal.journal().last_moment();
        let version = journal.journal().version();
        let mut gathered = Gathered::new(alloc);
        gathered.catch_up(alloc, journal.journal())?;
        Ok(Core {
            journal,
            gathered,
            entries: Vec::new(alloc),
            size: 0,
            moment,
            version,
            first: change,
            change,
            behind: change,
        })
    }

    /// The moment of the last entry, or of what the service was opened with: no call may be
    /// earlier.
    pub fn moment(&self) -> Moment
        ensures moment { result ≡ last_moment (log self.now) }
        ensures within { result ≤ last_of_all }
    {
        self.moment
    }

    /// The version of the files: how often one was put or removed. While it stays, so do the files.
    pub fn version(&self) -> u64
        ensures { result ≡ counted (version (log self.now)) }
    {
        self.version
    }

    /// The entries since the service was opened, in order: a legal history, in which each stage was
    /// started as the next one, an exclusive resource has one holder at most, and nothing was left
    /// that was due.
    pub fn entries(&self) -> &[Entry]
        ensures entries { result.now ≡ self.now.entries }
        ensures legal { Legal self.now.opening self.now.entries }
        ensures guarded { IsGuarded self.now.opening self.now.entries }
    {
        self.guarded();
        self.entries.as_slice()
    }

    /// What a legal history makes sure of.
    fn guarded(&self)
        ensures { IsGuarded self.now.opening self.now.entries }
    {
        access_laws();
        let _count = self.entries.len();
    }

    /// What a call wants to be compiled, or None where it queues no run, where its caller isn't
    /// known or may not queue, or where the pipeline isn't known. Memory where memory is wanting.
    pub fn wanted(&self, alloc: Global, call: &Call) -> Result<Option<Snapshot>, Memory>
        requires { self.now.pending ≡ [] }
        ensures { IfOk result (WantsFor (log self.now) call.now) }
    {
        wanted_for(alloc, self.journal.journal(), &self.gathered, call)
    }

    /// The kept rows of the state, in order of table and key. Memory where memory is wanting, and
    /// where a text or a list is too long for a row.
    pub fn rows_of(&self, alloc: Global) -> Result<List<Row>, Memory>
        requires { self.now.pending ≡ [] }
        ensures { IfOk result (AreKept self.now) }
    {
        rows_of(alloc, self.journal.journal(), self.change)
    }

    /// The reply to a call at a seat, the entry that the call makes and what that changes among the
    /// kept rows: what the step gives. The state stays as it is, and all memory is taken that
    /// `install` needs. What was prepared before and wasn't installed is gone. Memory where memory
    /// is wanting; then nothing is prepared.
    ///
    /// A claim is answered with the job exactly where its agent may have it, and else refused by
    /// the first rule that it breaks; and with the entry the history is one that `entries`
    /// promises.
    ///
    /// `made` is what `wanted` was compiled to, and is there exactly where that is.
    pub fn prepare(
        &mut self,
        alloc: Global,
        seat: u64,
        call: &Call,
        made: Option<Result<Shared<Compiled>, Refusal>>,
    ) -> Result<Prepared, Memory>
        requires well_formed { is_well_formed call.now ≡ true }
        requires moment { last_moment (log self.old) ≤ call.now.moment }
        requires made { IsMadeFor (log self.old) call.now made }
        ensures opening { self.new.opening ≡ self.old.opening }
        ensures entries { self.new.entries ≡ self.old.entries }
        ensures steps { IfOk result (λ prepared. IsStep (held self.old) (log self.old) call.now
            made (stepped_with prepared.reply (added_by prepared.entry))) }
        ensures entry { IfOk result (λ prepared.
            IsEntryOf (next_number self.old) seat call.now prepared.entry) }
        ensures changes { IfOk result (λ prepared. AreOfEntry (held self.old).change
            (next_change self.old prepared.entry) (log self.old) (added_by prepared.entry)
            prepared.changes) }
        ensures prepared { IfOk result (λ prepared. IsPrepared self.new prepared.entry) }
        ensures guarded { IfOk result (λ prepared.
            IsGuarded self.old.opening (entries_with self.old.entries prepared.entry)) }
        ensures answered { IfOk result (λ prepared. IsOrderly self.old.opening →
            IsAnswered self.old.opening self.old.entries call.now
            (stepped_with prepared.reply (added_by prepared.entry))) }
        ensures err { OnErr result (self.new.pending ≡ []) }
    {
        compilations_can_run();
        access_laws();
        claim_laws();
        self.journal.back_to_installed();
        self.gathered.catch_up(alloc, self.journal.journal())?;
        self.entries.reserve(1)?;
        let held = Held {
            entries: self.entries.len() as u64,
            size: self.size,
            change: self.change,
        };
        prepare(
            alloc,
            &mut self.journal,
            &mut self.behind,
            &held,
            seat,
            call,
            made,
        )
    }

    /// Makes what was prepared last true, and gives its reply. It takes no memory. The history is
    /// one that `entries` promises.
    pub fn install(&mut self, prepared: Prepared) -> Reply
        requires { IsPrepared self.old prepared.entry }
        ensures reply { result ≡ prepared.reply }
        ensures state { self.new ≡ installed prepared.entry self.old }
        ensures guarded { IsGuarded self.new.opening self.new.entries }
    {
        let Prepared { reply, entry, .. } = prepared;
        if let Some(entry) = entry {
            self.add(entry);
        }
        self.guarded();
        reply
    }

    /// Takes the prepared entry among the others.
    fn add(&mut self, entry: Entry)
        requires { IsPrepared self.old (Some entry) }
        ensures { self.new ≡ installed (Some entry) self.old }
    {
        self.size = self.size.saturating_add(size_of(&entry));
        self.entries.push_reserved(entry);
        self.journal.install();
        self.moment = self.journal.journal().last_moment();
        self.version = self.journal.journal().version();
        self.change = self.behind;
    }

    /// Gives up what was prepared and isn't installed. It takes no memory.
    pub fn back(&mut self)
        ensures { self.new ≡ record self.old { pending = [] } }
    {
        self.journal.back_to_installed();
    }
}
