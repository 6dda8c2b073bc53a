ghost use Rattle.std.specs.Prelude.{◌≡◌, ◌++◌, ◌∷◌, [], IfOk, OnErr, OnOk, length, take};
ghost use Rattle.pl_journal.specs.Log.{empty};

use crate::about::Logged;
use crate::built_in::BuiltIn;
use crate::kinds::file_changes;
use pl_base::{Digest, Memory, Moment};
use pl_facts::Fact;
use pl_log::Log;
use std::alloc::Global;
use std::marker::Model;

/// What a service goes on from when it is opened again: the moment of the last entry, the number of
/// the run that was queued last, and the version of the files.
#[derive(Clone, Copy)]
pub struct Numbers {
    pub moment: Moment,
    pub run: u64,
    pub version: u64,
}

/// What has happened, fact after fact.
///
/// Contracts see it as the digest of the token of the principal `admin`, the opening (its numbers,
/// and how many facts it had), the list of all facts, and how many of them are installed. Each
/// look-up is said of that: the latest fact counts. How it is kept is hidden: a look-up costs what
/// the facts about its key do, and no more where the journal has more.
#[derive(Drop)]
pub struct Journal {
    pub(crate) log: Log<Logged>,
    pub(crate) built_in: BuiltIn,
    pub(crate) numbers: Numbers,
    /// How many facts the opening had.
    opened: usize,
    /// How often files changed since.
    pub(crate) changes: u64,
    /// How often up to the last fact that is installed.
    installed_changes: u64,
}

impl Model for Journal {
    ghost use Rattle.std.specs.Prelude.{◌≡◌};
    ghost use Rattle.std.specs.Coded.{codes};
    ghost use Rattle.pl_facts.specs.contracts.fact.Fact as a_fact;
    ghost use Rattle.pl_journal.specs.Counted.{IsCounted};
    ghost use Rattle.pl_journal.specs.Log.{Log as Told};
    ghost use Rattle.pl_journal.specs.Settings.{admin_agent, admin_principal, default_pool};

    ghost Value = { Told };

    ghost coded = { Prim.hlevel (codes, a_fact.the_row.coded) };

    ghost view = { λ journal. record {
      admin = journal.built_in.admin.digest;
      opening = record {
        moment = journal.numbers.moment;
        run = journal.numbers.run;
        version = journal.numbers.version;
        facts = journal.opened;
      };
      facts = journal.log.items;
      installed = journal.log.installed;
    } };

    ghost invariant = { λ journal.
        (journal.built_in.admin ≡ admin_principal journal.built_in.admin.digest) ×
        (journal.built_in.agent ≡ admin_agent) × (journal.built_in.pool ≡ default_pool) ×
        IsCounted journal.opened journal.log.installed journal.changes journal.installed_changes
        journal.log.items };
}

impl Journal {
    /// No facts yet, and this digest of the token of the principal `admin`.
    pub fn new(alloc: Global, admin: Digest) -> Result<Journal, Memory>
        ensures { IfOk result (λ journal. journal ≡ empty admin) }
    {
        Ok(Journal {
            log: Log::new(alloc),
            built_in: BuiltIn::new(alloc, admin)?,
            numbers: Numbers {
                moment: 0,
                run: 0,
                version: 0,
            },
            opened: 0,
            changes: 0,
            installed_changes: 0,
        })
    }

    /// Ends the opening: the facts so far are those that the service was opened with. It goes on
    /// from these numbers, and all facts are installed. It takes no memory.
    pub fn begin(&mut self, numbers: Numbers)
        ensures { self.new ≡ record self.old {
          opening = record {
            moment = numbers.moment;
            run = numbers.run;
            version = numbers.version;
            facts = length self.old.facts;
          };
          installed = length self.old.facts;
        } }
    {
        self.log.install();
        self.opened = self.log.len();
        self.numbers = numbers;
        self.changes = 0;
        self.installed_changes = 0;
    }

    /// Puts a fact behind the others. After Memory the journal is as before, and the fact is
    /// dropped. A journal has fewer than 2^32 facts: one more is want of memory.
    pub fn push(&mut self, fact: Fact) -> Result<(), Memory>
        ensures ok { OnOk result (self.new ≡
            record self.old { facts = self.old.facts ++ fact ∷ [] }) }
        ensures err { OnErr result (self.new ≡ self.old) }
    {
        let more = file_changes(&fact.event);
        self.log.push(Logged { fact })?;
        self.changes = self.changes.saturating_add(more);
        Ok(())
    }

    /// How many facts there are.
    pub fn len(&self) -> usize
        ensures { result ≡ length self.now.facts }
    {
        self.log.len()
    }

    /// Takes the facts away that aren't installed. It takes no memory.
    pub fn back_to_installed(&mut self)
        ensures { self.new ≡
            record self.old { facts = take self.old.installed self.old.facts } }
    {
        self.log.back_to_installed();
        self.changes = self.installed_changes;
    }

    /// Installs all facts: they stay. It takes no memory.
    pub fn install(&mut self)
        ensures { self.new ≡ record self.old { installed = length self.old.facts } }
    {
        self.log.install();
        self.installed_changes = self.changes;
    }
}
