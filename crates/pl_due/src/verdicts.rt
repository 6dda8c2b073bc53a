//! The stages that wait for no other stage, each judged once: whether a check of it fails, and else
//! whether it may start as far as no other stands in its way.

ghost use Rattle.std.specs.Prelude.{◌≡◌, ◌≤◌, ◌&&◌, IfOk, None, Some, cond};
ghost use Rattle.pl_due.specs.Asked.{IsAsked, facts_of};
ghost use Rattle.pl_due.specs.Checked.{is_permitted};
ghost use Rattle.pl_due.specs.Contention as spec;
ghost use Rattle.pl_due.specs.Fit.{AreFit, last_moment};
ghost use Rattle.pl_due.specs.Kinds.{IsPassedOver};
ghost use Rattle.pl_due.specs.Least.{OfStages};
ghost use Rattle.pl_due.specs.Scans as scans;

use crate::checked::is_permitted;
use crate::contention::contender_of;
use crate::ends::fail_end;
use crate::judging::judgement;
use crate::nodes::is_waiting;
use crate::open_stages::Place;
use crate::stage_at::StageAt;
use pl_base::{List, Memory, Moment};
use pl_facts::{Event, Rule};
use pl_journal::Journal;
use pl_judgement::{Judgement, judgement_laws};
use pl_locks::Contender;
use std::alloc::Global;

/// What is told of one stage: its end where a check of it fails, and else the stage as a contender,
/// where it may start as far as no other stands in its way.
#[derive(Drop)]
struct OneJudged {
    fails: Option<Event>,
    picked: Option<Contender>,
}

/// What is told of some stages: the end of the first of which a check fails, and where none does
/// all that may start as far as no other stands in their way.
#[derive(Drop)]
pub struct AllJudged {
    pub fails: Option<Event>,
    pub eligible: List<Contender>,
}

/// Judges some stages, none of which has a condition that is false, until a check of one fails.
pub fn all_judged(
    alloc: Global,
    journal: &Journal,
    moment: Moment,
    places: &[Place],
) -> Result<AllJudged, Memory>
    requires moment { moment ≤ last_moment }
    requires fit { AreFit journal.now.facts }
    requires says { scans.FirstStage journal.now.facts (IsPassedOver journal.now.facts) places.now
        None }
    ensures { IfOk result (λ told. scans.AllJudged journal.now.facts moment places.now told.fails
        told.eligible) }
{
    let mut eligible = List::new(alloc);
    for place in places {
        let OneJudged { fails, picked } = judged_at(alloc, journal, moment, *place)?;
        if let Some(event) = fails {
            return Ok(AllJudged {
                fails: Some(event),
                eligible,
            });
        }
        if let Some(stage) = picked {
            eligible.push(stage)?;
        }
    }
    Ok(AllJudged {
        fails: None,
        eligible,
    })
}

/// Judges the stage of a run at a place, if it is there.
fn judged_at(
    alloc: Global,
    journal: &Journal,
    moment: Moment,
    place: Place,
) -> Result<OneJudged, Memory>
    requires moment { moment ≤ last_moment }
    requires fit { AreFit journal.now.facts }
    requires says { scans.FirstJob (OfStages journal.now.facts
        (IsPassedOver journal.now.facts) place.run place.stage) None }
    ensures { IfOk result (λ told. scans.OneJudged journal.now.facts moment place.run place.stage
        told.fails told.picked) }
{
    match journal.run(place.run) {
        Some(queued) => match queued.compiled.plan.stages.get(place.stage as usize) {
            Some(planned) => judged(
                alloc,
                &StageAt {
                    journal,
                    moment,
                    run: place.run,
                    stage: place.stage,
                    queued,
                    planned,
                },
            ),
            None => Ok(nothing()),
        },
        None => Ok(nothing()),
    }
}

/// That a stage neither ends nor contends.
fn nothing() -> OneJudged
    ensures fails { result.fails ≡ None }
    ensures picked { result.picked ≡ None }
{
    OneJudged {
        fails: None,
        picked: None,
    }
}

/// Judges a stage.
fn judged(alloc: Global, at: &StageAt<'_>) -> Result<OneJudged, Memory>
    requires asked { IsAsked at.now }
    requires says { scans.FirstJob (OfStages (facts_of at.now) (IsPassedOver (facts_of at.now))
        at.now.run at.now.stage) None }
    ensures { IfOk result (λ told. scans.OneJudged (facts_of at.now) at.now.moment at.now.run
        at.now.stage told.fails told.picked) }
{
    judgement_laws();
    if !is_waiting(at) {
        return Ok(nothing());
    }
    let judgement = judgement(alloc, at)?;
    let passes = judgement.passes();
    match fail_of(judgement) {
        Some(rule) => Ok(OneJudged {
            fails: Some(fail_end(alloc, at.run, at.stage, rule)?),
            picked: None,
        }),
        None => Ok(OneJudged {
            fails: None,
            picked: contender_where(alloc, at, passes)?,
        }),
    }
}

/// The rule by which the first check fails that fails.
fn fail_of(judgement: Judgement) -> Option<Rule>
    ensures { result ≡ judgement.fail }
{
    judgement.fail
}

/// A waiting stage as a contender, where its checks pass and its pipeline may use what it uses.
fn contender_where(
    alloc: Global,
    at: &StageAt<'_>,
    passes: bool,
) -> Result<Option<Contender>, Memory>
    ensures { IfOk result (λ told. told ≡ cond
        (passes && is_permitted (facts_of at.now) at.now.queued.now at.now.planned.now)
        (Some (spec.contender_of (facts_of at.now) at.now.queued.now at.now.planned.now at.now.run
        at.now.stage)) None) }
{
    if passes && is_permitted(at.journal, at.queued, at.planned) {
        let one = contender_of(alloc, at.journal, at.run, at.stage, at.queued, at.planned)?;
        Ok(Some(one))
    } else {
        Ok(None)
    }
}
