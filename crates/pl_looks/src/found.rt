//! What is due first in a run, and which of its stages may start where nothing is.

ghost use Rattle.std.specs.Prelude.{◌≡◌, ◌≤◌, ◌∷◌, [], IfOk, None, Some};
ghost use Rattle.pl_due.specs.Contention.{AreThose, Holds, IsEligible};
ghost use Rattle.pl_due.specs.Fit.{AreFit, last_moment};
ghost use Rattle.pl_due.specs.Kinds.{Fails, IsPassedOver};
ghost use Rattle.pl_due.specs.Scans.{FirstStage, Waits};
ghost use Rattle.pl_looks.specs.Looks.{OfRun, found_of, kind_number};
ghost use Rattle.pl_looks.specs.OneRun.{HasOfRun};
ghost use Rattle.pl_run_laws.specs.ByRuns.{FirstIn, kinds};

use crate::types::{First, Kind};
use pl_base::{List, Memory, Moment};
use pl_due::{
    AllJudged, Done, FalseJobs, FalseStages, Journal, OutOfTime, Place, all_judged, first_stage,
};
use pl_facts::Event;
use pl_locks::Contender;
use std::alloc::Global;

/// What is due first in a run, and where nothing is, its stages that may start as far as no other
/// stands in their way.
#[derive(Drop)]
pub(crate) struct Found {
    pub(crate) first: Option<First>,
    pub(crate) eligible: List<Contender>,
}

/// That a fact of a kind is due.
fn due(alloc: Global, kind: Kind, event: Event) -> Found
    ensures { found_of result.first ≡ Some (kind_number kind, event) }
{
    Found {
        first: Some(First { kind, event }),
        eligible: List::new(alloc),
    }
}

/// What is found in the stages of a run that run and in those that wait for no other.
pub(crate) fn found_in(
    alloc: Global,
    journal: &Journal,
    run: u64,
    moment: Moment,
    running: &[Place],
    waiting: &[Place],
) -> Result<Found, Memory>
    requires moment { moment ≤ last_moment }
    requires fit { AreFit journal.now.facts }
    requires running { HasOfRun journal.now.facts run (Holds journal.now.facts) running.now }
    requires waiting { HasOfRun journal.now.facts run (Waits journal.now.facts) waiting.now }
    ensures first { IfOk result (λ told.
        FirstIn journal.now.facts 0 (kinds journal.now.facts moment) run (found_of told.first)) }
    ensures eligible { IfOk result (λ told. told.first ≡ None →
        AreThose journal.now.facts (OfRun run (IsEligible journal.now.facts moment))
        told.eligible) }
{
    if let Some(event) = first_stage(alloc, journal, moment, running, &OutOfTime)? {
        return Ok(due(alloc, Kind::TimesOut, event));
    }
    if let Some(event) = first_stage(alloc, journal, moment, running, &FalseJobs)? {
        return Ok(due(alloc, Kind::JobIsPassedOver, event));
    }
    if let Some(event) = first_stage(alloc, journal, moment, running, &Done)? {
        return Ok(due(alloc, Kind::IsDone, event));
    }
    if let Some(event) = first_stage(alloc, journal, moment, waiting, &FalseStages)? {
        return Ok(due(alloc, Kind::IsPassedOver, event));
    }
    checked(alloc, journal, run, moment, waiting)
}

/// What the checks of the stages say that wait, none of which has a condition that is false.
fn checked(
    alloc: Global,
    journal: &Journal,
    run: u64,
    moment: Moment,
    waiting: &[Place],
) -> Result<Found, Memory>
    requires moment { moment ≤ last_moment }
    requires fit { AreFit journal.now.facts }
    requires waiting { HasOfRun journal.now.facts run (Waits journal.now.facts) waiting.now }
    requires says { FirstStage journal.now.facts (IsPassedOver journal.now.facts) waiting.now None }
    ensures first { IfOk result (λ told.
        FirstIn journal.now.facts 4 (Fails journal.now.facts moment ∷ []) run
        (found_of told.first)) }
    ensures eligible { IfOk result (λ told. told.first ≡ None →
        AreThose journal.now.facts (OfRun run (IsEligible journal.now.facts moment))
        told.eligible) }
{
    let AllJudged { fails, eligible } = all_judged(alloc, journal, moment, waiting)?;
    match fails {
        Some(event) => Ok(due(alloc, Kind::Fails, event)),
        None => Ok(Found {
            first: None,
            eligible,
        }),
    }
}
