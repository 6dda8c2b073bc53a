//! Stages as contenders for exclusive resources.

ghost use Rattle.std.specs.Prelude.{◌≡◌, ◌≤◌, IfOk};
ghost use Rattle.pl_due.specs.Asked.{IsAsked, facts_of};
ghost use Rattle.pl_due.specs.Contention as spec;
ghost use Rattle.pl_due.specs.Fit.{AreFit, last_moment};
ghost use Rattle.pl_due.specs.Scans.{HasRunning, HasWaiting, IsPicked, Picked};

use crate::checked::exclusive_uses;
use crate::eligible::{Eligible, Holding, Running};
use crate::open_stages::{Place, open_stages};
use crate::stage_at::StageAt;
use pl_base::{ExactCopy, List, Memory, Moment};
use pl_facts::QueuedRun;
use pl_journal::Journal;
use pl_locks::Contender;
use pl_open_runs::IndexedJournal;
use pl_plan::PlanStage;
use std::alloc::Global;

/// The stages that contend for exclusive resources, by run, then by place: those that may be
/// started as far as no other stands in their way, and those that run and hold what they use.
#[derive(Drop)]
pub struct Contention {
    pub eligible: List<Contender>,
    pub holders: List<Contender>,
}

/// Which stages contend at a moment. Only open runs are looked at. Each fact's moment is one that a
/// clock tells, and each run's plan can run, as `due` asks. Memory comes where there is none, and
/// nothing else.
pub fn contention_at(
    alloc: Global,
    journal: &IndexedJournal,
    moment: Moment,
) -> Result<Contention, Memory>
    requires moment { moment ≤ last_moment }
    requires fit { AreFit journal.now.facts }
    ensures { IfOk result (λ told. spec.IsContention journal.now.facts moment
        (spec.locks told.eligible told.holders)) }
{
    let stages = open_stages(alloc, journal)?;
    let running = stages.running.as_slice();
    let waiting = stages.waiting.as_slice();
    contention_among(alloc, journal.journal(), moment, running, waiting)
}

/// Which contend of the stages that run and of those that wait for no other stage.
fn contention_among(
    alloc: Global,
    journal: &Journal,
    moment: Moment,
    running: &[Place],
    waiting: &[Place],
) -> Result<Contention, Memory>
    requires moment { moment ≤ last_moment }
    requires fit { AreFit journal.now.facts }
    requires running { HasRunning journal.now.facts running.now }
    requires waiting { HasWaiting journal.now.facts waiting.now }
    ensures { IfOk result (λ told. spec.IsContention journal.now.facts moment
        (spec.locks told.eligible told.holders)) }
{
    let eligible = contenders(alloc, journal, moment, waiting, &Eligible)?;
    let holders = contenders(alloc, journal, moment, running, &Running)?;
    Ok(Contention { eligible, holders })
}

/// A stage as one that wants its exclusive resources, as they are set now. Memory comes where there
/// is none, and nothing else.
pub fn contender_of(
    alloc: Global,
    journal: &Journal,
    run: u64,
    stage: u32,
    queued: &QueuedRun,
    planned: &PlanStage,
) -> Result<Contender, Memory>
    ensures { IfOk result (λ one. one ≡ spec.contender_of journal.now.facts queued.now planned.now
        run stage) }
{
    let pipeline = queued.pipeline.copy(alloc)?;
    let name = planned.name.copy(alloc)?;
    let resources = exclusive_uses(alloc, journal, planned)?;
    Ok(Contender {
        run,
        position: stage,
        pipeline,
        name,
        behaviour: planned.behaviour,
        resources,
    })
}

/// A stage as a contender, where something holds of it.
fn contender_if<H: Holding>(
    alloc: Global,
    at: &StageAt<'_>,
    holding: &H,
) -> Result<Option<Contender>, Memory>
    requires { IsAsked at.now }
    ensures { IfOk result (IsPicked (facts_of at.now)
        (H.of holding.now (facts_of at.now) at.now.moment) at.now.run at.now.stage) }
{
    if holding.holds(alloc, at)? {
        let one = contender_of(alloc, at.journal, at.run, at.stage, at.queued, at.planned)?;
        Ok(Some(one))
    } else {
        Ok(None)
    }
}

/// The stage of a run at a place as a contender, where it is there and something holds of it.
fn contender_at<H: Holding>(
    alloc: Global,
    journal: &Journal,
    moment: Moment,
    place: Place,
    holding: &H,
) -> Result<Option<Contender>, Memory>
    requires moment { moment ≤ last_moment }
    requires fit { AreFit journal.now.facts }
    ensures { IfOk result (IsPicked journal.now.facts
        (H.of holding.now journal.now.facts moment) place.run place.stage) }
{
    match journal.run(place.run) {
        Some(queued) => match queued.compiled.plan.stages.get(place.stage as usize) {
            Some(planned) => contender_if(
                alloc,
                &StageAt {
                    journal,
                    moment,
                    run: place.run,
                    stage: place.stage,
                    queued,
                    planned,
                },
                holding,
            ),
            None => Ok(None),
        },
        None => Ok(None),
    }
}

/// Those of some stages of which something holds, in their order.
pub fn contenders<H: Holding>(
    alloc: Global,
    journal: &Journal,
    moment: Moment,
    places: &[Place],
    holding: &H,
) -> Result<List<Contender>, Memory>
    requires moment { moment ≤ last_moment }
    requires fit { AreFit journal.now.facts }
    ensures { IfOk result (Picked journal.now.facts
        (H.of holding.now journal.now.facts moment) places.now) }
{
    let mut picked = List::new(alloc);
    for place in places {
        if let Some(one) = contender_at(alloc, journal, moment, *place, holding)? {
            picked.push(one)?;
        }
    }
    Ok(picked)
}
