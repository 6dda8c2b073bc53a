ghost use Rattle.std.specs.Prelude.{◌≡◌, ◌≢◌, ◌↔◌, [], All, Any, Contains, IfOk, IsSome, IsTrue};
ghost use Rattle.std.specs.Prelude.{MatchOption, OnErr, OnOk};
ghost use Rattle.pl_locks.specs.declared.contender.Contender.{Contender};
ghost use Rattle.pl_locks.specs.Locks.{IsAt, IsHeld, IsLeastSuperseded, IsLeastLaterRun, IsNext};
ghost use Rattle.pl_locks.specs.Locks.{IsSuperseded, MayStart};
ghost use Rattle.pl_locks.specs.Kept.{IsAbsent, IsOrdered, IsPutIn, without};

use crate::asking::{least_unblocked, told_at};
use crate::entering::{self, Queues};
use crate::places::is_absent;
use pl_base::{ExactCopy, Memory};
use pl_locks::{Contender, next_of};
use std::alloc::Global;
use std::marker::Model;

/// The stages that want exclusive resources: those that are eligible, and those that hold them,
/// with queues by which the next one, and one that gives way, are told at a cost that doesn't grow
/// with how many wait.
///
/// Contracts see it as these two lists, each of them ascending by run and position.
#[derive(Drop)]
pub struct LockQueues {
    eligible: Vec<Contender>,
    holders: Vec<Contender>,
    queues: Queues,
}

impl Model for LockQueues {
    ghost use Rattle.std.specs.Prelude.{◌+◌, ◌≤◌, vec_len};
    ghost use Rattle.std.specs.Vec.{vec_capacity};
    ghost use Rattle.pl_locks.specs.Locks.{Locks};
    ghost use Rattle.pl_locks.specs.Kept.{IsOrdered};
    ghost use Rattle.pl_lock_queues.specs.Queues.{AreMarked, AreNamed, AreWaiting};

    ghost Value = { Locks };

    ghost view = { λ lists. record {
      eligible = lists.eligible.items;
      holders = lists.holders.items;
    } };

    // The holders have room for every stage that is eligible.
    ghost invariant = { λ lists. (IsOrdered lists.eligible.items × IsOrdered lists.holders.items ×
        (vec_len lists.eligible + vec_len lists.holders ≤ vec_capacity lists.holders)) ×
        (AreWaiting lists.eligible.items lists.queues.lines.lines lists.queues.free
        lists.queues.superseded × AreNamed lists.eligible.items lists.queues.names.lines ×
        AreMarked lists.eligible.items lists.holders.items lists.queues.marks) };
}

impl LockQueues {
    /// No stages. It takes no memory.
    pub fn new(alloc: Global) -> LockQueues
        ensures eligible { result.eligible ≡ [] }
        ensures holders { result.holders ≡ [] }
    {
        LockQueues {
            eligible: Vec::new(alloc),
            holders: Vec::new(alloc),
            queues: entering::none(alloc),
        }
    }

    /// Puts a stage among the eligible ones. It takes the memory that `hold` needs later. After
    /// Memory both lists are as before, and the stage is dropped.
    pub fn enter(&mut self, alloc: Global, stage: Contender) -> Result<(), Memory>
        requires { IsAbsent stage.run stage.position self.old.eligible }
        ensures eligible { OnOk result (IsPutIn stage self.old.eligible self.new.eligible) }
        ensures holders { OnOk result (self.new.holders ≡ self.old.holders) }
        ensures err { OnErr result (self.new ≡ self.old) }
    {
        self.holders.reserve(self.eligible.len() + 1)?;
        entering::enter(alloc, &mut self.eligible, &mut self.queues, stage)?;
        Ok(())
    }

    /// Puts a stage among the holders. After Memory both lists are as before, and the stage is
    /// dropped.
    pub fn join(&mut self, alloc: Global, stage: Contender) -> Result<(), Memory>
        requires { IsAbsent stage.run stage.position self.old.holders }
        ensures eligible { OnOk result (self.new.eligible ≡ self.old.eligible) }
        ensures holders { OnOk result (IsPutIn stage self.old.holders self.new.holders) }
        ensures err { OnErr result (self.new ≡ self.old) }
    {
        let room = self.eligible.len();
        entering::join(
            alloc,
            &mut self.holders,
            room,
            &mut self.queues.marks,
            stage,
        )?;
        Ok(())
    }

    /// Takes a stage from the eligible ones. Where it isn't among them, nothing changes. It takes
    /// no memory.
    pub fn leave(&mut self, run: u64, position: u32)
        ensures eligible { self.new.eligible ≡ without run position self.old.eligible }
        ensures holders { self.new.holders ≡ self.old.holders }
        ensures absent { IsAbsent run position self.old.eligible → self.new ≡ self.old }
    {
        entering::leave(&mut self.eligible, &mut self.queues, run, position);
    }

    /// Moves a stage from the eligible ones to the holders. It takes no memory.
    pub fn hold(&mut self, run: u64, position: u32)
        requires eligible { Any (IsAt run position) self.old.eligible }
        requires holders { IsAbsent run position self.old.holders }
        ensures eligible { self.new.eligible ≡ without run position self.old.eligible }
        ensures holders { (stage : Contender) → Contains self.old.eligible stage →
            IsAt run position stage → IsPutIn stage self.old.holders self.new.holders }
    {
        entering::hold(
            &mut self.eligible,
            &mut self.holders,
            &mut self.queues,
            run,
            position,
        );
    }

    /// Takes a stage from the holders. Where it isn't among them, nothing changes. It takes no
    /// memory.
    pub fn release(&mut self, run: u64, position: u32)
        ensures eligible { self.new.eligible ≡ self.old.eligible }
        ensures holders { self.new.holders ≡ without run position self.old.holders }
        ensures absent { IsAbsent run position self.old.holders → self.new ≡ self.old }
    {
        entering::release(&mut self.holders, &mut self.queues.marks, run, position);
    }

    /// The run and the position of the stage that may start next, or None where nothing may. Where
    /// no stage gives way to another, it looks at the first stage in each resource's line alone.
    pub fn next(&self) -> Option<(u64, u32)>
        ensures next { MatchOption result
            (All (λ stage. ¬ MayStart self.now.eligible self.now.holders stage) self.now.eligible)
            (λ told. (stage : Contender) × IsNext self.now.eligible self.now.holders stage ×
            IsAt told.0 told.1 stage) }

        // There is a next stage where nothing stands in an eligible one's way, and where some stage
        // is eligible and no holder has a resource of an eligible one.
        ensures some { (stage : Contender) → Contains self.now.eligible stage →
            MayStart self.now.eligible self.now.holders stage → IsSome result }
        ensures progress { self.now.eligible ≢ [] →
            All (λ stage. ¬ IsHeld self.now.holders stage) self.now.eligible → IsSome result }
    {
        if self.queues.superseded.is_empty() {
            least_unblocked(
                &self.eligible,
                &self.queues.lines,
                &self.queues.marks,
                &self.queues.free,
            )
        } else {
            next_of(&self.eligible, &self.holders)
        }
    }

    /// The run and the position of the least stage that is superseded, and the least run to whose
    /// stage it gives way; or None where none is.
    pub fn superseded(&self) -> Option<(u64, u32, u64)>
        ensures { MatchOption result
            (All (λ stage. ¬ IsSuperseded self.now.eligible stage) self.now.eligible)
            (λ told. (stage : Contender) × (IsLeastSuperseded self.now.eligible stage) ×
            (IsAt told.0 told.1 stage) × (IsLeastLaterRun self.now.eligible stage told.2)) }
    {
        match self.queues.superseded.first() {
            Some(place) => Some(told_at(&self.eligible, *place)),
            None => None,
        }
    }

    /// Whether no stage of that run stands in the lists at that position.
    pub fn is_new(&self, run: u64, position: u32) -> bool
        ensures { IsTrue result ↔
            (IsAbsent run position self.now.eligible × IsAbsent run position self.now.holders) }
    {
        is_absent(&self.eligible, run, position) && is_absent(&self.holders, run, position)
    }

    /// The same two lists once more.
    pub fn copy(&self, alloc: Global) -> Result<LockQueues, Memory>
        ensures { IfOk result (λ copy. copy ≡ self.now) }
    {
        let mut copy = LockQueues::new(alloc);
        copy.enter_all(alloc, &self.eligible)?;
        copy.join_all(alloc, &self.holders)?;
        Ok(copy)
    }

    /// Puts copies of stages, which ascend by run and position, among the eligible ones, where
    /// there is none yet.
    fn enter_all(&mut self, alloc: Global, stages: &[Contender]) -> Result<(), Memory>
        requires none { self.old.eligible ≡ [] }
        requires ordered { IsOrdered stages.now }
        ensures eligible { OnOk result (self.new.eligible ≡ stages.now) }
        ensures holders { OnOk result (self.new.holders ≡ self.old.holders) }
    {
        for stage in stages {
            self.enter(alloc, stage.copy(alloc)?)?;
        }
        Ok(())
    }

    /// The same of the holders.
    fn join_all(&mut self, alloc: Global, stages: &[Contender]) -> Result<(), Memory>
        requires none { self.old.holders ≡ [] }
        requires ordered { IsOrdered stages.now }
        ensures eligible { OnOk result (self.new.eligible ≡ self.old.eligible) }
        ensures holders { OnOk result (self.new.holders ≡ stages.now) }
    {
        for stage in stages {
            self.join(alloc, stage.copy(alloc)?)?;
        }
        Ok(())
    }

    /// What holds of both lists, however they came about.
    pub fn facts(&self)
        ensures eligible { IsOrdered self.now.eligible }
        ensures holders { IsOrdered self.now.holders }
    {
        let _ = &self.holders;
    }
}
