ghost use Rattle.std.specs.Prelude.{◌≡◌, ◌≢◌, ◌↔◌, [], All, Contains, IfOk, IsSome, IsTrue};
ghost use Rattle.std.specs.Prelude.{MatchOption, OnErr, OnOk};
ghost use Rattle.pl_locks.specs.declared.contender.Contender.{Contender};
ghost use Rattle.pl_locks.specs.Locks.{IsAt, IsHeld, IsLeastSuperseded, IsLeastLaterRun, IsNext};
ghost use Rattle.pl_locks.specs.Locks.{IsSuperseded, MayStart};
ghost use Rattle.pl_locks.specs.Kept.{IsAbsent, IsKept, IsPutIn, without};

use pl_base::Memory;
use pl_lock_queues::LockQueues;
use pl_locks::Contender;
use std::alloc::Global;
use std::marker::Model;

/// The stages that want exclusive resources: those that are eligible, and those that hold them, in
/// an ordered queue for each resource.
///
/// Contracts see it as these two lists, each of them ascending by run and position. No stage stands
/// in them twice, and no two holders use one resource.
#[derive(Drop)]
pub struct Contenders {
    alloc: Global,
    queues: LockQueues,
}

impl Model for Contenders {
    ghost use Rattle.pl_locks.specs.Locks.{Locks};
    ghost use Rattle.pl_locks.specs.Kept.{IsKept};

    ghost Value = { Locks };

    ghost view = { λ lists. lists.queues };

    ghost invariant = { λ lists. IsKept lists.queues.eligible lists.queues.holders };
}

impl Contenders {
    /// No stages.
    pub fn new(alloc: Global) -> Contenders
        ensures eligible { result.eligible ≡ [] }
        ensures holders { result.holders ≡ [] }
    {
        Contenders {
            alloc,
            queues: LockQueues::new(alloc),
        }
    }

    /// The same two lists once more.
    pub fn copy(&self) -> Result<Contenders, Memory>
        ensures { IfOk result (λ copy. copy ≡ self.now) }
    {
        let queues = self.queues.copy(self.alloc)?;
        Ok(Contenders {
            alloc: self.alloc,
            queues,
        })
    }

    /// Puts a stage among the eligible ones. It takes the memory that `hold` needs later. After
    /// Memory both lists are as before, and the stage is dropped.
    pub fn enter(&mut self, stage: Contender) -> Result<(), Memory>
        requires eligible { IsAbsent stage.run stage.position self.old.eligible }
        requires holders { IsAbsent stage.run stage.position self.old.holders }
        ensures eligible { OnOk result (IsPutIn stage self.old.eligible self.new.eligible) }
        ensures holders { OnOk result (self.new.holders ≡ self.old.holders) }
        ensures err { OnErr result (self.new ≡ self.old) }
    {
        self.queues.enter(self.alloc, stage)?;
        Ok(())
    }

    /// Takes a stage from the eligible ones. Where it isn't among them, nothing changes.
    pub fn leave(&mut self, run: u64, position: u32)
        ensures eligible { self.new.eligible ≡ without run position self.old.eligible }
        ensures holders { self.new.holders ≡ self.old.holders }
        ensures absent { IsAbsent run position self.old.eligible → self.new ≡ self.old }
    {
        self.queues.leave(run, position);
    }

    /// Moves the next stage from the eligible ones to the holders.
    pub fn hold(&mut self, run: u64, position: u32)
        requires { (stage : Contender) × IsNext self.old.eligible self.old.holders stage ×
            IsAt run position stage }
        ensures eligible { self.new.eligible ≡ without run position self.old.eligible }
        ensures holders { (stage : Contender) → Contains self.old.eligible stage →
            IsAt run position stage → IsPutIn stage self.old.holders self.new.holders }
    {
        self.queues.hold(run, position);
    }

    /// Takes a stage from the holders. Where it isn't among them, nothing changes.
    pub fn release(&mut self, run: u64, position: u32)
        ensures eligible { self.new.eligible ≡ self.old.eligible }
        ensures holders { self.new.holders ≡ without run position self.old.holders }
        ensures absent { IsAbsent run position self.old.holders → self.new ≡ self.old }
    {
        self.queues.release(run, position);
    }

    /// The run and the position of the stage that may start next, or None where nothing may.
    pub fn next(&self) -> Option<(u64, u32)>
        ensures next { MatchOption result
            (All (λ stage. ¬ MayStart self.now.eligible self.now.holders stage) self.now.eligible)
            (λ told. (stage : Contender) × IsNext self.now.eligible self.now.holders stage ×
            IsAt told.0 told.1 stage) }

        // There is a next stage where nothing stands in an eligible one's way, and where some stage
        // is eligible and no holder has a resource of an eligible one.
        ensures some { (stage : Contender) → Contains self.now.eligible stage →
            MayStart self.now.eligible self.now.holders stage → IsSome result }
        ensures progress { self.now.eligible ≢ [] →
            All (λ stage. ¬ IsHeld self.now.holders stage) self.now.eligible → IsSome result }
    {
        self.queues.next()
    }

    /// The run and the position of the least stage that is superseded, and the least run to whose
    /// stage it gives way; or None where none is.
    pub fn superseded(&self) -> Option<(u64, u32, u64)>
        ensures { MatchOption result
            (All (λ stage. ¬ IsSuperseded self.now.eligible stage) self.now.eligible)
            (λ told. (stage : Contender) × (IsLeastSuperseded self.now.eligible stage) ×
            (IsAt told.0 told.1 stage) × (IsLeastLaterRun self.now.eligible stage told.2)) }
    {
        self.queues.superseded()
    }

    /// Whether no stage of that run stands in the lists at that position, so that one may enter.
    pub fn is_new(&self, run: u64, position: u32) -> bool
        ensures { IsTrue result ↔
            (IsAbsent run position self.now.eligible × IsAbsent run position self.now.holders) }
    {
        self.queues.is_new(run, position)
    }

    /// What holds of both lists, however they came about.
    pub fn facts(&self)
        ensures { IsKept self.now.eligible self.now.holders }
    {
        let _ = &self.queues;
    }
}
