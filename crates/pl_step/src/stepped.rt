ghost use Rattle.std.specs.Prelude.{◌≡◌, [], IfOk};
ghost use Rattle.pl_journal.specs.Log.{Log};
ghost use Rattle.pl_row_changes.specs.Changing.{AreOfEntry};
ghost use Rattle.pl_step.specs.Step.{refusing};

use pl_answers::Answer;
use pl_base::{List, Memory};
use pl_facts::Fact;
use pl_requests::{Reply, Rule};
use pl_row_changes::EntryChanges;
use std::alloc::Global;

/// What a call is answered, and the facts that it adds. Where it adds none it makes no entry.
#[derive(Drop)]
pub struct Stepped {
    pub reply: Reply,
    pub added: List<Fact>,
}

/// What a call is answered and adds, and what that changes among the kept rows.
#[derive(Drop)]
pub struct Entered {
    pub stepped: Stepped,
    pub rows: EntryChanges,
}

impl Stepped {
    /// The same, where nothing is added.
    pub(crate) fn alone(self, alloc: Global, change: u64) -> Entered
        requires { self.added ≡ [] }
        ensures stepped { result.stepped ≡ self }
        ensures rows { (log : Log) →
            AreOfEntry change result.rows.next log [] result.rows.changes }
    {
        Entered {
            stepped: self,
            rows: EntryChanges::none(alloc, change),
        }
    }

    /// A refusal that adds nothing.
    pub(crate) fn refusing(alloc: Global, status: u16, rule: &Rule) -> Result<Stepped, Memory>
        ensures { IfOk result (λ stepped. stepped ≡ refusing status rule.now) }
    {
        let Answer { reply, .. } = Answer::refusal(alloc, status, rule)?;
        Ok(Stepped {
            reply,
            added: List::new(alloc),
        })
    }
}
