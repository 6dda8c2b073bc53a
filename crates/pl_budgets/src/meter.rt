use crate::budget::Budget;
use pl_base::Memory;
use std::alloc::Global;
use std::cell::Cell;
use std::fmt;
use std::sync::Arc;

/// How many bytes of texts and nodes an expansion makes, with those that the values of the expression
/// in work hold (Microsoft Learn, Azure Pipelines, "Templates", Imposed limits: 20 megabytes). More
/// are want of memory.
pub const MOST_MADE: u64 = 20_971_520;

/// How many units of work an expansion does, each of some nanoseconds. More are want of memory.
pub const MOST_WORK: u64 = 134_217_728;

/// What is left: to make, to hold while one expression is evaluated, and to do; and the budget that
/// was passed first.
#[derive(Drop)]
struct Account {
    made: Cell<u64>,
    held: Cell<u64>,
    work: Cell<u64>,
    passed: Cell<Option<Budget>>,
}

/// What a compile may still make and do, and which of its budgets was passed first. No contract
/// tells what it holds: past a budget memory is wanting, and that may always be.
#[derive(Drop)]
pub struct Meter {
    account: Arc<Account, Global>,
}

impl Meter {
    /// Takes so many off what is left of a budget. Memory where there are fewer, of which none is
    /// left then.
    fn take(&self, left: &Cell<u64>, units: u64, budget: Budget) -> Result<(), Memory> {
        match left.get().checked_sub(units) {
            Some(rest) => {
                left.set(rest);
                Ok(())
            }
            None => {
                left.set(0);
                Err(self.pass(budget))
            }
        }
    }

    /// Nothing is made or done yet. Memory where memory is wanting.
    pub fn new(alloc: Global) -> Result<Meter, Memory> {
        let made = Cell::new(MOST_MADE);
        let held = Cell::new(MOST_MADE);
        let work = Cell::new(MOST_WORK);
        let passed = Cell::new(None);
        let account = Account {
            made,
            held,
            work,
            passed,
        };
        let account = Arc::new(alloc, account)?;
        Ok(Meter { account })
    }

    /// A budget is passed, which is want of memory. The first one is kept.
    pub fn pass(&self, budget: Budget) -> Memory {
        if self.account.passed.get().is_none() {
            self.account.passed.set(Some(budget));
        }
        Memory
    }

    /// The budget that was passed first, where one was.
    pub fn passed(&self) -> Option<Budget> {
        self.account.passed.get()
    }

    /// The same account once more. Memory where the count of those who share it has no room.
    pub fn share(&self) -> Result<Meter, Memory> {
        let account = Arc::try_clone(&self.account)?;
        Ok(Meter { account })
    }

    /// So many bytes are made. Memory past `MOST_MADE`.
    pub fn make(&self, bytes: u64) -> Result<(), Memory> {
        self.take(&self.account.made, bytes, Budget::Made)
    }

    /// An expression begins: nothing is held for it yet.
    pub fn begin(&self) {
        self.account.held.set(self.account.made.get());
    }

    /// The values of an expression hold so many bytes more. Memory past `MOST_MADE`, what is made
    /// counted in.
    pub fn hold(&self, bytes: u64) -> Result<(), Memory> {
        self.take(&self.account.held, bytes, Budget::Made)
    }

    /// So many units of work are done. Memory past `MOST_WORK`.
    pub fn work(&self, units: u64) -> Result<(), Memory> {
        self.take(&self.account.work, units, Budget::Work)
    }
}

impl fmt::Debug for Meter {
    fn fmt<W: fmt::Write>(&self, f: &mut fmt::Formatter<W>) -> fmt::Result {
        f.write_str("Meter")
    }
}
