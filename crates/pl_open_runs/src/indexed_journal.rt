ghost use Rattle.std.specs.Prelude.{◌≡◌, ◌++◌, ◌∷◌, [], IfOk, OnErr, OnOk, length, take};
ghost use Rattle.pl_journal.specs.Log.{empty};
ghost use Rattle.pl_open_runs.specs.Open.{open_runs};

use crate::index::{back_to_installed, begin, install, push};
use pl_base::{Digest, Memory};
use pl_facts::Fact;
use pl_journal::{Journal, Numbers};
use std::alloc::Global;
use std::marker::Model;

/// What has happened, fact after fact, with an index of the runs that are open: those with a stage
/// that hasn't ended.
///
/// Contracts see it as they see the journal. So whoever looks for something to do looks at open
/// runs alone: how many runs have ended makes no difference. All other look-ups are those of the
/// journal.
#[derive(Drop)]
pub struct IndexedJournal {
    journal: Journal,
    /// Among these are all runs that are open, and all that were when the last fact was installed.
    known: Vec<u64>,
    runs: Vec<u64>,
}

impl Model for IndexedJournal {
    ghost use Rattle.std.specs.Prelude.{◌≤◌, vec_len, vec_capacity};
    ghost use Rattle.pl_journal.specs.contracts.journal.Journal as a_journal;
    ghost use Rattle.pl_journal.specs.Log.{Log};
    ghost use Rattle.pl_open_runs.specs.Index.{IsIndex};

    ghost Value = { Log };

    ghost coded = { a_journal.the_row.coded };

    ghost view = { λ indexed. indexed.journal };

    // So that going back takes no memory, there is room for all known runs among the open ones.
    ghost invariant = { λ indexed.
        IsIndex indexed.journal indexed.known.items indexed.runs.items ×
        (vec_len indexed.known ≤ vec_capacity indexed.runs) };
}

impl IndexedJournal {
    /// No facts yet, and this digest of the token of the principal `admin`.
    pub fn new(alloc: Global, admin: Digest) -> Result<IndexedJournal, Memory>
        ensures { IfOk result (λ journal. journal ≡ empty admin) }
    {
        Ok(IndexedJournal {
            journal: Journal::new(alloc, admin)?,
            known: Vec::new(alloc),
            runs: Vec::new(alloc),
        })
    }

    /// The facts so far are those that the service is opened with, and it goes on from these
    /// numbers. All facts are installed. It takes no memory.
    pub fn begin(&mut self, numbers: Numbers)
        ensures { self.new ≡ record self.old {
          opening = record {
            moment = numbers.moment;
            run = numbers.run;
            version = numbers.version;
            facts = length self.old.facts;
          };
          installed = length self.old.facts;
        } }
    {
        begin(&mut self.journal, &mut self.known, &self.runs, numbers);
    }

    /// The journal without the index, in which all else is looked up.
    pub fn journal(&self) -> &Journal
        ensures { result.now ≡ self.now }
    {
        &self.journal
    }

    /// The numbers of the open runs, in order. It takes no memory.
    pub fn open_runs(&self) -> &[u64]
        ensures { result.now ≡ open_runs self.now.facts }
    {
        self.runs.as_slice()
    }

    /// Puts a fact behind the others. After Memory the journal is as before, and the fact is
    /// dropped. A journal has fewer than 2^32 facts and a run fewer than 2^32 stages: one more is
    /// want of memory.
    pub fn push(&mut self, fact: Fact) -> Result<(), Memory>
        ensures ok { OnOk result (self.new ≡
            record self.old { facts = self.old.facts ++ fact ∷ [] }) }
        ensures err { OnErr result (self.new ≡ self.old) }
    {
        push(&mut self.journal, &mut self.known, &mut self.runs, fact)
    }

    /// Takes the facts away that aren't installed. It takes no memory.
    pub fn back_to_installed(&mut self)
        ensures { self.new ≡
            record self.old { facts = take self.old.installed self.old.facts } }
    {
        back_to_installed(&mut self.journal, &self.known, &mut self.runs);
    }

    /// Installs all facts: they stay. It takes no memory.
    pub fn install(&mut self)
        ensures { self.new ≡ record self.old { installed = length self.old.facts } }
    {
        install(&mut self.journal, &mut self.known, &self.runs);
    }
}
