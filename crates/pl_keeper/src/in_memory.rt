ghost use Rattle.std.specs.Prelude.{◌≡◌, ◌↔◌, if◌then◌else◌, Some, IfOk, IfSome, IsErrOf};
ghost use Rattle.std.specs.Prelude.{IsPermutation, IsTrue, OnErr, OnOk};
ghost use Rattle.std.specs.List.Sorted.{IsSorted};
ghost use Rattle.pl_base.specs.Counts.{one_more};
ghost use Rattle.pl_base.specs.Streams.{is_listed};
ghost use Rattle.pl_keeper.specs.Keeping.{all_changed, row_cmp, IsInOrder, WhereTold};

use crate::copies::{change_copies, row_copies};
use crate::fault::KeeperFault;
use crate::keeper::Keeper;
use crate::order::{change_all, put_in_order};
use pl_base::{Change, List, Row};
use std::alloc::Global;

/// Rows in memory, which it always tells.
#[derive(Debug, Drop)]
pub struct MemKeeper {
    rows: Vec<Row>,
    failing: List<u64>,
    calls: u64,
    faults: u64,
    ghost ordered: { IsInOrder rows.items },
}

impl MemKeeper {
    /// These rows, which it puts in order of table and key, and those of one table and key in order
    /// of their bodies. The calls of `apply` and `rows` whose numbers are listed, counted together
    /// from 1, fail. It takes no memory.
    pub fn new(rows: List<Row>, failing: List<u64>) -> MemKeeper
        ensures rows { IsPermutation rows result.rows.items }
        ensures sorted { IsSorted row_cmp result.rows.items }
        ensures failing { result.failing ≡ failing }
        ensures calls { result.calls ≡ 0 }
        ensures quiet { result.faults ≡ 0 }
    {
        let mut rows = rows.into_vec();
        put_in_order(&mut rows);
        MemKeeper {
            rows,
            failing,
            calls: 0,
            faults: 0,
        }
    }

    /// Counts a call, and a fault where the call is among those that are to fail.
    fn is_to_fail(&mut self) -> bool
        ensures calls { self.new.calls ≡ one_more self.old.calls }
        ensures faults { self.new.faults ≡
            (if result then one_more self.old.faults else self.old.faults) }
        ensures failing { self.new.failing ≡ self.old.failing }
        ensures rows { self.new.rows ≡ self.old.rows }
        ensures fails { IsTrue result ↔ IsTrue (is_listed self.new.calls self.old.failing) }
    {
        self.calls = self.calls.saturating_add(1);
        let fails = self.failing.as_slice().contains(&self.calls);
        if fails {
            self.faults = self.faults.saturating_add(1);
        }
        fails
    }
}

impl Keeper for MemKeeper {
    ghost held = { λ keeper. Some keeper.rows.items };

    ghost faults = { λ keeper. keeper.faults };

    /// Memory is answered before anything changed, so the rows are as before; the call is counted.
    fn apply(&mut self, alloc: Global, changes: &List<Change>) -> Result<(), KeeperFault>
        ensures applied { OnOk result (WhereTold (Some self.old.rows.items)
            (Some self.new.rows.items) (λ before after. after ≡ all_changed changes.now before)) }
        ensures kept { OnErr result (WhereTold (Some self.old.rows.items)
            (Some self.new.rows.items) (λ before after. after ≡ before)) }
        ensures quiet { OnOk result (self.new.faults ≡ self.old.faults) }
        ensures failed { IsErrOf result KeeperFault.Failed →
            self.new.faults ≡ one_more self.old.faults }
        ensures memory { IsErrOf result KeeperFault.Memory → self.new.faults ≡ self.old.faults }
        ensures all { OnOk result
            (self.new.rows.items ≡ all_changed changes.now self.old.rows.items) }
        ensures none { OnErr result (self.new.rows.items ≡ self.old.rows.items) }
        ensures calls { self.new.calls ≡ one_more self.old.calls }
        ensures listed { self.new.failing ≡ self.old.failing }
        ensures failing { IsErrOf result KeeperFault.Failed ↔
            IsTrue (is_listed self.new.calls self.old.failing) }
    {
        if self.is_to_fail() {
            return Err(KeeperFault::Failed);
        }
        let copies = change_copies(alloc, changes.as_slice())?;
        self.rows.reserve(copies.len())?;
        change_all(&mut self.rows, copies);
        Ok(())
    }

    fn rows(&mut self, alloc: Global) -> Result<List<Row>, KeeperFault>
        ensures told { IfOk result (λ rows. IfSome (Some self.new.rows.items)
            (λ held. rows ≡ held)) }
        ensures ordered { IfOk result IsInOrder }
        ensures kept { WhereTold (Some self.old.rows.items) (Some self.new.rows.items)
            (λ before after. after ≡ before) }
        ensures quiet { OnOk result (self.new.faults ≡ self.old.faults) }
        ensures failed { IsErrOf result KeeperFault.Failed →
            self.new.faults ≡ one_more self.old.faults }
        ensures memory { IsErrOf result KeeperFault.Memory → self.new.faults ≡ self.old.faults }
        ensures all { IfOk result (λ rows. rows ≡ self.old.rows.items) }
        ensures same { self.new.rows.items ≡ self.old.rows.items }
        ensures calls { self.new.calls ≡ one_more self.old.calls }
        ensures listed { self.new.failing ≡ self.old.failing }
        ensures failing { IsErrOf result KeeperFault.Failed ↔
            IsTrue (is_listed self.new.calls self.old.failing) }
    {
        if !self.is_to_fail() {
            return Ok(row_copies(alloc, self.rows.as_slice())?);
        }
        Err(KeeperFault::Failed)
    }

    fn faults(&self) -> u64 {
        self.faults
    }
}
