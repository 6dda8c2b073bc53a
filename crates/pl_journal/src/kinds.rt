//! Kinds of facts, as tests.

ghost use Rattle.std.specs.Prelude.{◌≡◌, if◌then◌else◌};
ghost use Rattle.pl_journal.specs.Kinds.{is_file_change, is_of};

use crate::about::Logged;
use pl_base::Text;
use pl_facts::Event;
use pl_log::Test;

/// Which facts count for a look-up.
#[derive(Clone, Copy)]
pub(crate) enum What<'w> {
    Queueing,
    Canceling,
    Start,
    StageEnd,
    /// A decision of this approver.
    DecisionBy(&'w Text),
    Taking,
    JobEnd,
}

impl Test<Logged> for What<'_> {
    ghost passes = { λ what fact. is_of what fact.event };

    fn passes(&self, logged: &Logged) -> bool {
        match (self, &logged.fact.event) {
            (What::Queueing, Event::RunQueued(_)) => true,
            (What::Canceling, Event::RunCanceled { .. }) => true,
            (What::Start, Event::StageStarted { .. }) => true,
            (What::StageEnd, Event::StageEnded { .. }) => true,
            (What::DecisionBy(name), Event::DecisionMade { approver, .. }) => {
                let approver: &Text = approver;
                approver.cmp(name).is_eq()
            }
            (What::Taking, Event::JobTaken { .. }) => true,
            (What::JobEnd, Event::JobEnded { .. }) => true,
            _ => false,
        }
    }
}

/// How often a file changed by a fact: once where it was put or removed.
pub(crate) fn file_changes(event: &Event) -> u64
    ensures { result ≡ (if is_file_change event.now then 1 else 0) }
{
    match event {
        Event::FilePut(_) => 1,
        Event::FileRemoved(_) => 1,
        _ => 0,
    }
}
