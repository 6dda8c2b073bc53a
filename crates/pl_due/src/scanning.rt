//! The stages that haven't ended, gone through in order for what is due in them.

ghost use Rattle.std.specs.Prelude.{◌≡◌, ◌≤◌, IfOk, List, ℕ};
ghost use Rattle.pl_due.specs.Asked.{IsAsked, facts_of, in_it};
ghost use Rattle.pl_due.specs.Fit.{AreFit, last_moment};
ghost use Rattle.pl_due.specs.Least.{InStage, OfStages};
ghost use Rattle.pl_due.specs.Scans.{FirstJob, FirstStage};
ghost use Rattle.pl_facts.specs.declared.fact.Fact.{Fact};

use crate::open_stages::Place;
use crate::stage_at::StageAt;
use pl_base::{Memory, Moment};
use pl_facts::Event;
use pl_journal::Journal;
use std::alloc::Global;

/// A kind of what is due.
pub trait Kind {
    ghost of: { Self → List Fact → ℕ → InStage };

    /// The fact that a stage gets, or the first of its jobs that is of this kind; None where
    /// neither the stage nor a job is.
    fn in_stage(&self, alloc: Global, at: &StageAt<'_>) -> Result<Option<Event>, Memory>
        requires { IsAsked at.now }
        ensures { IfOk result (FirstJob
            (in_it (of self.now (facts_of at.now) at.now.moment) at.now)) };
}

/// What is due of a kind in the stage of a run at a place, if it is there.
fn in_place<K: Kind>(
    alloc: Global,
    journal: &Journal,
    moment: Moment,
    place: Place,
    kind: &K,
) -> Result<Option<Event>, Memory>
    requires moment { moment ≤ last_moment }
    requires fit { AreFit journal.now.facts }
    ensures { IfOk result (FirstJob (OfStages journal.now.facts
        (K.of kind.now journal.now.facts moment) place.run place.stage)) }
{
    match journal.run(place.run) {
        Some(queued) => match queued.compiled.plan.stages.get(place.stage as usize) {
            Some(planned) => kind.in_stage(
                alloc,
                &StageAt {
                    journal,
                    moment,
                    run: place.run,
                    stage: place.stage,
                    queued,
                    planned,
                },
            ),
            None => Ok(None),
        },
        None => Ok(None),
    }
}

/// What is due of a kind in the first of some stages in which anything is.
pub fn first_stage<K: Kind>(
    alloc: Global,
    journal: &Journal,
    moment: Moment,
    places: &[Place],
    kind: &K,
) -> Result<Option<Event>, Memory>
    requires moment { moment ≤ last_moment }
    requires fit { AreFit journal.now.facts }
    ensures { IfOk result (FirstStage journal.now.facts
        (K.of kind.now journal.now.facts moment) places.now) }
{
    for place in places {
        if let Some(event) = in_place(alloc, journal, moment, *place, kind)? {
            return Ok(Some(event));
        }
    }
    Ok(None)
}
