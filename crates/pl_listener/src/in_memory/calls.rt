ghost use Rattle.std.specs.Prelude.{◌≡◌, ◌↔◌, if◌then◌else◌, IsTrue, IfOk};
ghost use Rattle.pl_base.specs.Counts.{one_more};
ghost use Rattle.pl_base.specs.Streams.{is_listed};

use pl_base::{List, Memory};
use std::alloc::Global;

/// The calls of a handle: which of them are to fail, how many were made, and how many failed.
#[derive(Debug, Drop)]
pub struct Calls {
    failing: List<u64>,
    made: u64,
    faults: u64,
}

impl Calls {
    /// No call was made. Those whose numbers are listed, counted from 1, are to fail.
    pub fn new(failing: List<u64>) -> Calls
        ensures failing { result.failing ≡ failing }
        ensures made { result.made ≡ 0 }
        ensures quiet { result.faults ≡ 0 }
    {
        Calls {
            failing,
            made: 0,
            faults: 0,
        }
    }

    /// The same calls that are to fail, of which none was made.
    pub fn anew(&self, alloc: Global) -> Result<Calls, Memory>
        ensures failing { IfOk result (λ calls. calls.failing ≡ self.now.failing) }
        ensures made { IfOk result (λ calls. calls.made ≡ 0) }
        ensures quiet { IfOk result (λ calls. calls.faults ≡ 0) }
    {
        Ok(Calls::new(List::from_slice(alloc, self.failing.as_slice())?))
    }

    /// Counts a call, and a fault where the call is to fail.
    pub fn next_fails(&mut self) -> bool
        ensures made { self.new.made ≡ one_more self.old.made }
        ensures faults { self.new.faults ≡
            (if result then one_more self.old.faults else self.old.faults) }
        ensures failing { self.new.failing ≡ self.old.failing }
        ensures fails { IsTrue result ↔ IsTrue (is_listed self.new.made self.old.failing) }
    {
        self.made = self.made.saturating_add(1);
        let fails = self.failing.as_slice().contains(&self.made);
        if fails {
            self.faults = self.faults.saturating_add(1);
        }
        fails
    }

    /// Counts a fault.
    pub fn count_fault(&mut self)
        ensures { self.new ≡ record self.old { faults = one_more self.old.faults } }
    {
        self.faults = self.faults.saturating_add(1);
    }

    /// How many calls failed.
    pub fn faults(&self) -> u64
        ensures { result ≡ self.now.faults }
    {
        self.faults
    }
}
