ghost use Rattle.std.specs.Prelude.{◌≡◌, ◌+◌, IfOk};
ghost use Rattle.pl_directives.specs.Regions.{under, inside, of_item};

use pl_base::{Memory, Text};
use pl_budgets::Budget;
use pl_directives::Standing;
use pl_frame::Frame;

/// What a node is expanded in: its frame, and where it stands.
#[derive(Clone, Copy)]
pub struct Scope<'f> {
    pub frame: &'f Frame,
    pub at: Standing,
}

impl<'f> Scope<'f> {
    /// That of the value of a key.
    pub fn under(self, key: &Text) -> Scope<'f>
        ensures frame { result.frame ≡ self.entry.frame }
        ensures region { result.at.region ≡ under key.now self.entry.at.region }
        ensures levels { result.at.levels ≡ self.entry.at.levels }
        ensures calls { result.at.calls ≡ self.entry.at.calls }
    {
        Scope {
            frame: self.frame,
            at: self.at.under(key),
        }
    }

    /// That of a list that is an item.
    pub fn inside(self) -> Scope<'f>
        ensures frame { result.frame ≡ self.entry.frame }
        ensures region { result.at.region ≡ inside self.entry.at.region }
        ensures levels { result.at.levels ≡ self.entry.at.levels }
        ensures calls { result.at.calls ≡ self.entry.at.calls }
    {
        Scope {
            frame: self.frame,
            at: self.at.inside(),
        }
    }

    /// That of the pairs of a mapping that is an item.
    pub fn of_item(self) -> Scope<'f>
        ensures frame { result.frame ≡ self.entry.frame }
        ensures region { result.at.region ≡ of_item self.entry.at.region }
        ensures levels { result.at.levels ≡ self.entry.at.levels }
        ensures calls { result.at.calls ≡ self.entry.at.calls }
    {
        Scope {
            frame: self.frame,
            at: self.at.of_item(),
        }
    }

    /// That of what is in a node. Memory comes where the node may hold none.
    pub fn below(self) -> Result<Scope<'f>, Memory>
        ensures frame { IfOk result (λ scope. scope.frame ≡ self.entry.frame) }
        ensures region { IfOk result (λ scope. scope.at.region ≡ self.entry.at.region) }
        ensures levels { IfOk result (λ scope. scope.at.levels + 1 ≡ self.entry.at.levels) }
        ensures calls { IfOk result (λ scope. scope.at.calls ≡ self.entry.at.calls) }
    {
        let Ok(at) = self.at.below() else {
            return Err(self.frame.meter().pass(Budget::Open));
        };
        Ok(Scope {
            frame: self.frame,
            at,
        })
    }
}
